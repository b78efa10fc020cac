#![tactic(auto)]
// The run: the input is checked, turned, sorted and merged, looked at and split until it is settled, then swept (core/).
ghost use Rattle.std.specs.Prelude.{IfOk, Ok, ◌≡◌, length};
ghost use Rattle.whole.specs.Kind.{rows_from};
ghost use Rattle.geom.specs.Limits.{work_room, mark_room};
ghost use Rattle.geom.specs.Rows.{segments};
ghost use Rattle.overlay.specs.Looks.{ran};
ghost use Rattle.checks.specs.Checks.{fault_of};
ghost use Rattle.checks.specs.Accepted.{Accepted};
ghost use Rattle.overlay.specs.Outcome.{swept, outcome};
ghost use Rattle.settle.specs.Kept.{Kept};
ghost use Rattle.settle.specs.Step.{came_to};
ghost use Rattle.ending.specs.Lent.{lent, ended};

use checks::Settings;
use overlay::answer::{Answer, Refusal};

// The overlay of the first n segments of the input, which is never written. 1 to 6 change nothing, 7 to 11 set every other list to zero.
#[tactic(auto, unfolding(overlay::specs::Outcome::outcome, overlay::specs::Outcome::unless))]
pub fn overlay(
    input: &[i32],
    settings: Settings,
    work: &mut [i32],
    marks: &mut [i32],
    scan: &mut [i64],
    masks: &mut [u8],
) -> Answer
    ensures { ended result work.new marks.new scan.new masks.new ≡ outcome input.now settings (lent work.old marks.old scan.old masks.old) }
{
    checks::check(input, settings, work.len(), masks.len())?;
    run(input, settings, work, marks, scan, masks)
}

// The run of an input that passed the checks.
// Four parameters and no struct of them: tried, and the proof of `ending::finish` did not close.
fn run(
    input: &[i32],
    settings: Settings,
    work: &mut [i32],
    marks: &mut [i32],
    scan: &mut [i64],
    masks: &mut [u8],
) -> Answer
    requires { fault_of input.now settings (length work.old) (length masks.old) ≡ Ok tt }
    ensures { ended result work.new marks.new scan.new masks.new ≡ swept settings (lent work.old marks.old scan.old masks.old) (ran (mark_room (length marks.old)) (work_room (length work.old)) settings.budget (rows_from segments input.now 0 settings.n)) }
{
    match until_settled(input, settings, work, marks) {
        Ok(settled) => ending::finish(settings, settled, work, marks, scan, masks),
        Err(refusal) => {
            ending::clear(work, marks, scan, masks);
            Err(refusal)
        }
    }
}

// The input turned, sorted and merged, and looked at until it is settled.
fn until_settled(input: &[i32], settings: Settings, work: &mut [i32], marks: &mut [i32]) -> Answer
    requires { Accepted input.now settings (length work.old) (work_room (length work.old)) }
    ensures result_after { came_to work.new result ≡ ran (mark_room (length marks.old)) (work_room (length work.old)) settings.budget (rows_from segments input.now 0 settings.n) }
    ensures still_kept { IfOk result (λ s. Kept work.new s.segments) }
{
    let n = settings.n;
    steps::begin(input, n, work);
    let Ok(m) = steps::join(work, n) else {
        return Err(Refusal::TooBig);
    };
    // `as`: there is no From of u32 into usize.
    settle::looks(work, m, marks, settings.budget as usize)
}
