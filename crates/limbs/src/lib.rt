#![tactic(auto)]
// Numbers that a word does not hold: the product of two words in two words, and the factor that sets a divisor's top bit.
// What a quotient is, as a type and as a definition, stands here for the crates that divide: quotients and shares.
ghost use Rattle.std.specs.Prelude.{◌≡◌, ◌*◌, ◌^◌, ◌<◌};
ghost use Rattle.std.specs.Int.Count.{count_leading_zeros};
ghost use Rattle.limbs.specs.Limbs.{two_of};

#[derive(Clone, Copy, PartialEq, Eq)]
pub struct Two {
    pub high: u64,
    pub low: u64,
}

#[derive(Clone, Copy, PartialEq, Eq)]
pub struct Quotient {
    pub whole: u64,
    pub rest: u64,
}

// No divisor and a quotient that no word holds are answers too, so that callers owe nothing.
#[derive(Clone, Copy, PartialEq, Eq)]
pub enum DivisionError {
    NoDivisor,
    TooLarge,
}

const WORD: u128 = 1 << 64;

pub fn product(a: u64, b: u64) -> Two
    ensures { result ≡ two_of (a * b) }
{
    let product = u128::from(a) * u128::from(b);
    Two {
        // `as`: what is divided by WORD, and what is left, fit a word.
        high: (product / WORD) as u64,
        low: (product % WORD) as u64,
    }
}

// What to multiply a divisor with to set its top bit.
pub fn factor(d: u64) -> u64
    requires { 0 < d }
    ensures { result ≡ 2 ^ count_leading_zeros 64 d }
{
    1 << d.leading_zeros()
}
