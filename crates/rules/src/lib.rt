#![tactic(auto)]
// The seven overlay rules over the sixteen masks: which edges a rule keeps.
ghost use Rattle.std.specs.Prelude.{◌≡◌, ◌<◌};
ghost use Rattle.rules.specs.Keep.{number_of, RuleOf, kept};

use std::fmt;

#[derive(Clone, Copy, Debug, PartialEq, Eq)]
pub enum OverlayRule {
    Subject,
    Clip,
    Intersect,
    Union,
    Difference,
    InverseDifference,
    Xor,
}

// A number that is no overlay rule's.
#[derive(Clone, Copy, Debug, PartialEq, Eq)]
pub struct BadRule;

impl fmt::Display for BadRule {
    fn fmt<W: fmt::Write>(&self, f: &mut fmt::Formatter<W>) -> fmt::Result {
        f.write_str("no overlay rule has this number")
    }
}

// The rules by their numbers, in order.
impl TryFrom<u32> for OverlayRule {
    type Error = BadRule;

    ghost try_from_gives = { RuleOf };

    fn try_from(number: u32) -> Result<Self, BadRule> {
        match number {
            0 => Ok(OverlayRule::Subject),
            1 => Ok(OverlayRule::Clip),
            2 => Ok(OverlayRule::Intersect),
            3 => Ok(OverlayRule::Union),
            4 => Ok(OverlayRule::Difference),
            5 => Ok(OverlayRule::InverseDifference),
            6 => Ok(OverlayRule::Xor),
            _ => Err(BadRule),
        }
    }
}

impl OverlayRule {
    // Whether the rule keeps an edge with this mask: all 112 cases.
    pub fn keeps(self, mask: u8) -> bool
        requires mask_bound { mask < 16 }
        ensures { result ≡ kept (number_of self) mask }
    {
        match self {
            OverlayRule::Subject => matches!(mask, 1..=2 | 5..=6 | 9..=10 | 13..=14),
            OverlayRule::Clip => matches!(mask, 4..=11),
            OverlayRule::Intersect => matches!(mask, 5 | 7 | 10..=11 | 13..=14),
            OverlayRule::Union => matches!(mask, 1..=2 | 4..=5 | 8 | 10),
            OverlayRule::Difference => matches!(mask, 1..=2 | 6..=7 | 9 | 11),
            OverlayRule::InverseDifference => matches!(mask, 4 | 6 | 8..=9 | 13..=14),
            OverlayRule::Xor => matches!(mask, 1..=2 | 4 | 7..=8 | 11 | 13..=14),
        }
    }
}

// Whether an overlay rule keeps an edge with this mask, by the rule's number: a public function keeps its promise beside the enum's.
pub fn keeps(rule: u32, mask: u8) -> bool
    requires rule_bound { rule < 7 }
    requires mask_bound { mask < 16 }
    ensures { result ≡ kept rule mask }
{
    OverlayRule::try_from(rule).unwrap().keeps(mask)
}
