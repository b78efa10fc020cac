#![tactic(auto)]
// How a run ends: every list set to zero, or the sweep of its settled rows.
ghost use Rattle.std.specs.Prelude.{◌≡◌, ◌≤◌, length};
ghost use Rattle.whole.specs.Kind.{rows_from};
ghost use Rattle.geom.specs.Limits.{work_room};
ghost use Rattle.geom.specs.Rows.{segments};
ghost use Rattle.checks.specs.Accepted.{InRange};
ghost use Rattle.overlay.specs.Looks.{settled as settled_with};
ghost use Rattle.overlay.specs.Outcome.{all_zero, swept};
ghost use Rattle.settle.specs.Kept.{Kept};
ghost use Rattle.ending.specs.Lent.{lent, ended};

use checks::Settings;
use overlay::answer::{Answer, Refusal, Settled};

// 7 to 11: every list is set to zero.
pub fn clear(work: &mut [i32], marks: &mut [i32], scan: &mut [i64], masks: &mut [u8])
    ensures { lent work.new marks.new scan.new masks.new ≡ all_zero (lent work.old marks.old scan.old masks.old) }
{
    work.fill(0);
    marks.fill(0);
    scan.fill(0);
    masks.fill(0);
}

// The sweep of the rows that are settled: 11, or the edges and their bytes.
// Four parameters and no struct of them: tried, and the borrow check of this function did not close, since it lends three of the lists at once.
pub fn finish(
    settings: Settings,
    settled: Settled,
    work: &mut [i32],
    marks: &mut [i32],
    scan: &mut [i64],
    masks: &mut [u8],
) -> Answer
    requires in_range { InRange settings }
    requires kept { Kept work.old settled.segments }
    requires work_in_bounds { work_room (length work.old) ≤ length masks.old }
    ensures { ended result work.new marks.new scan.new masks.new ≡ swept settings (lent work.old marks.old scan.old masks.old) (settled_with (rows_from segments work.old 0 settled.segments) settled.looks) }
{
    let k = settled.segments;
    let fill = settings.fill;
    let rule = settings.rule;
    if build::sweep::fill(work, k, fill, rule, scan, masks).is_err() {
        clear(work, marks, scan, masks);
        return Err(Refusal::ScanFull);
    }
    steps::clear_behind(work, k);
    lists::clear_i32(marks);
    Ok(settled)
}
