// Refusals 1 and 2; 3 to 5 are those of the checks.
ghost use Rattle.std.specs.Prelude.{◌≡◌};
ghost use Rattle.build.specs.Fill.{is_short, RulesOf};

use crate::sweep::FillError;
use fills::FillRule;
use masks::Rules;
use rules::OverlayRule;

// 1, from the lengths of the work and mask lists.
#[tactic(auto, unfolding(crate::specs::Fill::is_short))]
pub(crate) fn is_short(n: usize, work: usize, masks: usize) -> bool
    ensures { result ≡ is_short n work masks }
{
    // Not by `rooms::work_room`: the edit limit_is_one_more plants its mistake here.
    2048 < n || work < 6 * n || masks < n
}

// The rules of these numbers, or 2.
#[tactic(auto, unfolding(crate::specs::Fill::is_bad))]
pub(crate) fn rules(fill: u32, rule: u32) -> Result<Rules, FillError>
    ensures { RulesOf fill rule result }
{
    Ok(Rules {
        fill: FillRule::try_from(fill)?,
        overlay: OverlayRule::try_from(rule)?,
    })
}
