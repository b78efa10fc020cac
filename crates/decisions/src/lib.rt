#![tactic(auto)]
// Whether an edge is kept, for a caller who may give any numbers.
ghost use Rattle.std.specs.Prelude.{◌≡◌};
ghost use Rattle.decisions.specs.Decision.{keep_says, keep_said};

use rules::{BadRule, OverlayRule};

// What is to be done with an edge.
#[derive(Clone, Copy, Debug, PartialEq, Eq)]
pub enum Decision {
    Keep,
    Drop,
}

// Decides from an edge's byte, of which the low four bits are the mask: the byte of a kept edge, with 16 added, decides as its mask does.
// Refusal 2: the number is no overlay rule.
#[tactic(auto, using(rules::proofs::Numbers::number_below_seven), unfolding(crate::specs::Decision::keep_said))]
pub fn keep(rule: u32, byte: u8) -> Result<Decision, BadRule>
    ensures { keep_says result ≡ keep_said rule byte }
{
    let rule = OverlayRule::try_from(rule)?;
    if rule.keeps(byte % 16) {
        return Ok(Decision::Keep);
    }
    Ok(Decision::Drop)
}
