#![tactic(auto)]
// The four fill rules.
ghost use Rattle.std.specs.Prelude.{◌≡◌};
ghost use Rattle.fills.specs.Inside.{inside as within, number_of, RuleOf};

use std::fmt;

#[derive(Clone, Copy, Debug, PartialEq, Eq)]
pub enum FillRule {
    EvenOdd,
    NonZero,
    Positive,
    Negative,
}

// A number that is no fill rule's.
#[derive(Clone, Copy, Debug, PartialEq, Eq)]
pub struct BadRule;

impl fmt::Display for BadRule {
    fn fmt<W: fmt::Write>(&self, f: &mut fmt::Formatter<W>) -> fmt::Result {
        f.write_str("no fill rule has this number")
    }
}

// The rules by their numbers, in order.
impl TryFrom<u32> for FillRule {
    type Error = BadRule;

    ghost try_from_gives = { RuleOf };

    fn try_from(number: u32) -> Result<Self, BadRule> {
        match number {
            0 => Ok(FillRule::EvenOdd),
            1 => Ok(FillRule::NonZero),
            2 => Ok(FillRule::Positive),
            3 => Ok(FillRule::Negative),
            _ => Err(BadRule),
        }
    }
}

impl FillRule {
    // Whether a side with this sum of counts is inside.
    #[tactic(auto, using(crate::proofs::Parity::zero_bits, crate::proofs::Parity::odd_bits), unfolding(crate::specs::Inside::inside))]
    pub fn is_inside(self, sum: i64) -> bool
        ensures { result ≡ within (number_of self) sum }
    {
        match self {
            // not `== 1`: the remainder of -1 is -1
            FillRule::EvenOdd => sum % 2 != 0,
            FillRule::NonZero => sum != 0,
            FillRule::Positive => 0 < sum,
            FillRule::Negative => sum < 0,
        }
    }
}

// Whether a side with this sum of counts is inside by fill rule `rule`. A number over 3 is no rule: whoever takes one from outside refuses it first.
// By the rule's number: a public function keeps its promise, for every number.
#[tactic(auto, unfolding(crate::specs::Inside::inside))]
pub fn inside(rule: u32, sum: i64) -> bool
    ensures { result ≡ within rule sum }
{
    FillRule::try_from(rule).is_ok_and(|rule| rule.is_inside(sum))
}
