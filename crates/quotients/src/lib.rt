#![tactic(auto)]
// A two-word number by a word, to the nearest: long division with digits of half a word, by a divisor raised until its top bit is set.
ghost use Rattle.std.specs.Prelude.{◌≡◌, cond, ltb, Ok, Err, ◌+◌, ◌*◌, ◌^◌, ◌≤◌, ◌<◌};
ghost use Rattle.limbs.specs.Limbs.{value, two_of, quotient_of, nearest_of};

use limbs::{DivisionError, Quotient, Two};

// One digit of a long division. The guess from the divisor's upper half is never below the digit and at most 2 above it;
// where it is above, what it takes too much says by how far.
// By halves of a word, and not by 128 bits: the edit guess_one_too_large plants its mistake in the guess.
fn digit(h: u64, l: u64, d: u64) -> Quotient
    requires { (2 ^ 63 ≤ d) × (h < d) × (l < 2 ^ 32) }
    ensures { result ≡ quotient_of (h * 2 ^ 32 + l) d }
{
    let d1 = d / 0x1_0000_0000;
    let d0 = d % 0x1_0000_0000;
    let guess = h / d1;
    let have = h % d1 * 0x1_0000_0000 + l;
    let want = guess * d0;
    if want <= have {
        return Quotient {
            whole: guess,
            rest: have - want,
        };
    }
    let lack = want - have;
    if lack <= d {
        return Quotient {
            whole: guess - 1,
            rest: d - lack,
        };
    }
    Quotient {
        whole: guess - 2,
        rest: d - (lack - d),
    }
}

// Two digits, for a divisor with its top bit set.
fn divide(n: Two, d: u64) -> Quotient
    requires { (2 ^ 63 ≤ d) × (n.high < d) }
    ensures { result ≡ quotient_of (value n) d }
{
    let upper = digit(n.high, n.low / 0x1_0000_0000, d);
    let lower = digit(upper.rest, n.low % 0x1_0000_0000, d);
    Quotient {
        whole: upper.whole * 0x1_0000_0000 + lower.whole,
        rest: lower.rest,
    }
}

fn raised(n: Two, f: u64) -> Two
    requires { (0 < f) × (n.high * f + f ≤ 2 ^ 64) }
    ensures { result ≡ two_of (value n * f) }
{
    let carried = limbs::product(n.low, f);
    Two {
        high: n.high * f + carried.high,
        low: carried.low,
    }
}

// From a quotient and its rest to the nearest, a half up.
fn rounded(x: Quotient, d: u64) -> Result<u64, DivisionError>
    requires { x.rest < d }
    ensures { result ≡ nearest_of (x.whole * d + x.rest) d }
{
    if x.rest < d - x.rest {
        Ok(x.whole)
    } else {
        next(x.whole)
    }
}

// The number after it, where a word holds that.
fn next(whole: u64) -> Result<u64, DivisionError>
    ensures { result ≡ cond (ltb (whole + 1) (2 ^ 64)) (Ok (whole + 1)) (Err DivisionError.TooLarge) }
{
    whole.checked_add(1).ok_or(DivisionError::TooLarge)
}

// To the nearest, a half up. The factor sets the divisor's top bit and leaves the quotient as it is.
pub fn nearest(n: Two, d: u64) -> Result<u64, DivisionError>
    ensures { result ≡ nearest_of (value n) d }
{
    if d == 0 {
        return Err(DivisionError::NoDivisor);
    }
    if n.high == 0 {
        let x = Quotient {
            whole: n.low / d,
            rest: n.low % d,
        };
        return rounded(x, d);
    }
    if d <= n.high {
        return Err(DivisionError::TooLarge);
    }
    let f = limbs::factor(d);
    let divisor = d * f;
    rounded(divide(raised(n, f), divisor), divisor)
}
