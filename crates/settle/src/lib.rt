#![tactic(auto)]
// The looks of a run: rows that are sorted and merged are looked at and split until they are settled (core/).
ghost use Rattle.std.specs.Prelude.{List, IfErr, IfOk, ◌≡◌, ◌<◌, ◌≤◌, length};
ghost use Rattle.whole.specs.Kind.{rows_from};
ghost use Rattle.geom.specs.declared.Segment.{Segment as Seg};
ghost use Rattle.geom.specs.Limits.{work_room, mark_room};
ghost use Rattle.geom.specs.Rows.{segments};
ghost use Rattle.overlay.specs.Looks.{Ran, refused, look_at};
ghost use Rattle.settle.specs.Kept.{Kept, Marked};
ghost use Rattle.settle.specs.Step.{goes_on, came_to, StillKept, split_at, looks_allowed};

use overlay::answer::{Answer, Refusal, Settled};

// Not std's ControlFlow: its Continue and Break say less than these names.
#[derive(Clone, Copy, PartialEq, Eq)]
pub enum Step {
    // The run goes on with so many rows.
    Next(usize),
    // It ends.
    Settled(Settled),
}

// Looks at the first m rows until they are settled, at most `budget` of them.
pub fn looks(work: &mut [i32], m: usize, marks: &mut [i32], budget: usize) -> Answer
    requires kept { Kept work.old m }
    requires budget_bound { budget ≤ 64 }
    ensures result_after { came_to work.new result ≡ looks_allowed (mark_room (length marks.old)) (work_room (length work.old)) budget 0 (rows_from segments work.old 0 m) }
    ensures still_kept { IfOk result (λ s. Kept work.new s.segments) }
    ensures no_look { budget ≡ 0 → Kept work.new m }
{
    let mut rows = m;
    for made in 0..budget {
        let last = made + 1 == budget;
        match advance(work, rows, marks, made, last)? {
            Step::Next(k) => rows = k,
            Step::Settled(settled) => return Ok(settled),
        }
    }
    Err(Refusal::Unsettled)
}

// One look at the first m rows, `made` looks after the first, and the list that follows it.
fn advance(
    work: &mut [i32],
    m: usize,
    marks: &mut [i32],
    made: usize,
    last: bool,
) -> Result<Step, Refusal>
    requires kept { Kept work.old m }
    requires made_bound { made < 64 }
    ensures next_value { (next : List Seg → Ran) → look_at (mark_room (length marks.old)) (work_room (length work.old)) last made (rows_from segments work.old 0 m) next ≡ goes_on next work.new result }
    ensures still_kept { IfOk result (StillKept work.new) }
{
    if m == 0 {
        return Ok(Step::Settled(Settled {
            segments: 0,
            looks: made,
        }));
    }
    let Ok(count) = pairwise::look(work, m, 2, marks) else {
        return Err(Refusal::MarksFull);
    };
    if count == 0 {
        return Ok(Step::Settled(Settled {
            segments: m,
            looks: made + 1,
        }));
    }
    if last {
        return Err(Refusal::Unsettled);
    }
    Ok(Step::Next(cut(work, m, marks, count)?))
}

// The first m rows split at the marks of a look at them, sorted and merged: how many rows are left.
fn cut(work: &mut [i32], m: usize, marks: &mut [i32], count: usize) -> Result<usize, Refusal>
    requires kept { Kept work.old m }
    requires marked { Marked (rows_from segments work.old 0 m) marks.old count }
    ensures ok { IfOk result (λ rows. (next : List Seg → Ran) → split_at (work_room (length work.old)) (rows_from segments work.old 0 m) next ≡ next (rows_from segments work.new 0 rows)) }
    ensures err { IfErr result (λ r. (next : List Seg → Ran) → split_at (work_room (length work.old)) (rows_from segments work.old 0 m) next ≡ refused r) }
    ensures still_kept { IfOk result (Kept work.new) }
{
    let Ok(k) = split::tidy::tidy(marks, count) else {
        return Err(Refusal::WorkFull);
    };
    let Ok(p) = apply::apply(work, m, marks, k) else {
        return Err(Refusal::WorkFull);
    };
    let Ok(rows) = steps::join(work, p) else {
        return Err(Refusal::TooBig);
    };
    Ok(rows)
}
