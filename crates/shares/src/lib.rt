#![tactic(auto)]
// A share of a number, to the nearest. No step of it hangs on a test that a processor cannot guess.
ghost use Rattle.std.specs.Prelude.{◌≡◌, ◌+◌, ◌*◌, ◌/◌, ◌^◌, ◌≤◌, ◌<◌};
ghost use Rattle.limbs.specs.Limbs.{rounded_of};

// One digit of a long division, where it is below 2^31: the guess from the divisor's upper half is at most 1 above it.
// By halves of a word, and not by 128 bits: the edit exact_guess_counts_as_too_large plants its mistake in the guess.
fn short_digit(h: u64, l: u64, d: u64) -> u64
    requires { (2 ^ 63 ≤ d) × (2 * h < d) × (l < 2 ^ 32) }
    ensures { result ≡ (h * 2 ^ 32 + l) / d }
{
    let d1 = d / 0x1_0000_0000;
    let d0 = d % 0x1_0000_0000;
    let guess = h / d1;
    let have = h % d1 * 0x1_0000_0000 + l;
    guess - u64::from(have < guess * d0)
}

// The share n / d of a, a half up: half of d is added before the division. The share is no larger than a: where a word does not hold
// what is divided, it is one digit.
pub fn share(n: u64, d: u64, a: u64) -> u64
    requires { (0 < d) × (n ≤ d) × (a < 2 ^ 31) }
    ensures { result ≡ rounded_of (n * a) d }
{
    let half = d / 2;
    let first = n % 0x1_0000_0000 * a + half % 0x1_0000_0000;
    let h = n / 0x1_0000_0000 * a + half / 0x1_0000_0000 + first / 0x1_0000_0000;
    if h < 0x1_0000_0000 {
        return (n * a + half) / d;
    }
    let f = limbs::factor(d);
    let low = first % 0x1_0000_0000 * f;
    short_digit(h * f + low / 0x1_0000_0000, low % 0x1_0000_0000, d * f)
}
