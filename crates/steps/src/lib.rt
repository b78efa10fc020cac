#![tactic(auto)]
// The steps of a run beside its looks: the input turned forward into the work list, the list sorted and merged, and the work list cleared behind its rows.
ghost use Rattle.std.specs.Prelude.{false, map, ◌≡◌, ◌*◌, ◌≤◌, pos, length, replicate};
ghost use Rattle.whole.specs.Kind.{rows_from, front};
ghost use Rattle.geom.specs.Limits.{segment_limit};
ghost use Rattle.geom.specs.Rows.{segments};
ghost use Rattle.segm.specs.Forward.{forward as forward_of};
ghost use Rattle.faults.specs.Faults.{some, has_least};
ghost use Rattle.steps.specs.Joining.{join_answer, join_list};

// A group's total leaves ±(2^31 - 1) (9).
#[derive(Clone, Copy, Debug, PartialEq, Eq)]
pub struct TooBig;

// The n segments of the input, turned to run forward, become the first rows of `work`.
pub fn begin(input: &[i32], n: usize, work: &mut [i32])
    requires n_in_bounds { 6 * n ≤ length input.now }
    requires n_in_bounds_2 { 6 * n ≤ length work.old }
    requires n_value { some has_least (rows_from segments input.now 0 n) ≡ false }
    ensures { work.new ≡ front segments work.old (map forward_of (rows_from segments input.now 0 n)) }
{
    for i in 0..n {
        let v = places::read(input, i);
        places::write(work, i, directions::forward(v));
    }
}

// The first n rows in order, then merged: how many are left. After 9 the list is wholly zero.
pub fn join(work: &mut [i32], n: usize) -> Result<usize, TooBig>
    requires n_le_segment_limit { n ≤ segment_limit }
    requires n_in_bounds { 6 * n ≤ length work.old }
    ensures value { result ≡ join_answer (rows_from segments work.old 0 n) }
    ensures work_after { work.new ≡ join_list work.old (rows_from segments work.old 0 n) }
{
    rows::sort(work, n, 6);
    match segm::merge(work, n) {
        Ok(merged) => Ok(merged.left),
        Err(_) => Err(TooBig),
    }
}

// Everything behind the first m rows becomes zero.
pub fn clear_behind(work: &mut [i32], m: usize)
    requires { 6 * m ≤ length work.old }
    ensures { work.new ≡ front segments (replicate (length work.old) (pos 0)) (rows_from segments work.old 0 m) }
{
    work[6 * m..].fill(0);
}
