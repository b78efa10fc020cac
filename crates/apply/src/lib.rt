#![tactic(auto)]
// Splitting at the marks (split/solver.rs `apply`), in the work list itself.
// The list is written from its back: the pieces of a segment start behind those of the segments before it, so never before its own row,
// and each segment is read before anything is written over it.
ghost use Rattle.std.specs.Prelude.{◌≡◌, true, false, ◌+◌, ◌-◌, ◌*◌, ◌≤◌, ◌<◌, pos, length};
ghost use Rattle.std.proofs.lemmas.List.Edits.{sets};
ghost use Rattle.whole.specs.Kind.{row_at, rows_from, flat};
ghost use Rattle.geom.specs.Plane.{sameZ};
ghost use Rattle.geom.specs.Rows.{segments};
ghost use Rattle.faults.specs.Faults.{some, has_least};
ghost use Rattle.split.specs.Marks.{marks as mark_rows};
ghost use Rattle.split.specs.Chain.{split as split_of};
ghost use Rattle.apply.specs.Answer.{names as names_of, earlier as is_earlier, leads as leads_to, in_order, apply_answer, apply_list};
ghost use Rattle.apply.specs.Said.{apply_says, apply_said};
ghost use Rattle.apply.specs.Start.{start_of};

use split::answer::Mark;
use split::mark;

// Why a list is not cut.
#[derive(Clone, Copy, Debug, PartialEq, Eq)]
pub enum ApplyError {
    // The lists are too short, or the marks are not in order (1).
    Short,
    // A count is -2^31 (5).
    BadCount,
    // The pieces have no room in the work list (8).
    Full,
}

// The first n rows of `work`, cut at the first `count` marks: how many segments that makes. After 8 the work list is wholly zero.
pub fn apply(work: &mut [i32], n: usize, marks: &[i32], count: usize) -> Result<usize, ApplyError>
    ensures value { result ≡ apply_answer work.old n marks.now count }
    ensures result_value { apply_says result ≡ apply_said work.old n marks.now count }
    ensures work_after { work.new ≡ apply_list result work.old n marks.now count }
{
    let room = rooms::work_room(work.len());
    if room < n || rooms::mark_room(marks.len()) < count || !in_order(marks, count, n) {
        return Err(ApplyError::Short);
    }
    if faults::some_row(work, n, faults::has_least) {
        return Err(ApplyError::BadCount);
    }
    if room < n + count {
        work.fill(0);
        return Err(ApplyError::Full);
    }
    cut_all(work, n, marks, count);
    Ok(n + count)
}

// The mark is one of segment i.
fn is_of(m: Mark, i: usize) -> bool
    requires { i ≤ 2048 }
    ensures { result ≡ sameZ m.segment (pos i) }
{
    m.segment == i as i32
}

#[tactic(auto, unfolding(crate::specs::Answer::names))]
fn names(m: Mark, n: usize) -> bool
    requires { n ≤ 2048 }
    ensures { result ≡ names_of n m }
{
    (0..n as i32).contains(&m.segment)
}

#[tactic(auto, using(crate::proofs::Derived::lt_is_earlier))]
fn earlier(m: Mark, k: Mark) -> bool
    ensures { result ≡ is_earlier m k }
{
    m < k
}

// Mark number i is earlier than the one after it.
fn leads(marks: &[i32], i: usize, count: usize) -> bool
    requires i_lt_count { i < count }
    requires count_in_bounds { 3 * count ≤ length marks.now }
    ensures { result ≡ leads_to (row_at mark_rows marks.now i) (rows_from mark_rows marks.now (i + 1) (count - (i + 1))) }
{
    i + 1 == count || earlier(mark::read(marks, i), mark::read(marks, i + 1))
}

fn in_order(marks: &[i32], count: usize, n: usize) -> bool
    requires n_bound { n ≤ 2048 }
    requires count_in_bounds { 3 * count ≤ length marks.now }
    ensures { result ≡ in_order n (rows_from mark_rows marks.now 0 count) }
{
    for i in 0..count {
        if !(names(mark::read(marks, i), n) && leads(marks, i, count)) {
            return false;
        }
    }
    true
}

// Every segment from the last to the first, each with the run of its marks.
fn cut_all(work: &mut [i32], n: usize, marks: &[i32], count: usize)
    requires n_bound { n ≤ 2048 }
    requires count_in_bounds { 6 * (n + count) ≤ length work.old }
    requires count_in_bounds_2 { 3 * count ≤ length marks.now }
    requires count_value { in_order n (rows_from mark_rows marks.now 0 count) ≡ true }
    requires n_value { some has_least (rows_from segments work.old 0 n) ≡ false }
    ensures { work.new ≡ sets work.old 0 (flat segments (split_of (rows_from mark_rows marks.now 0 count) (rows_from segments work.old 0 n))) }
{
    let mut e = count;
    for i in (0..n).rev() {
        let a = run_start(marks, i, e);
        let v = places::read(work, i);
        chains::cut(work, i + a, v, &marks[3 * a..3 * e], e - a);
        e = a;
    }
}

// The run of the marks of segment i that ends before mark number e.
fn run_start(marks: &[i32], i: usize, e: usize) -> usize
    requires i_bound { i ≤ 2048 }
    requires e_in_bounds { 3 * e ≤ length marks.now }
    ensures value { result ≡ start_of i marks.now e }
    ensures upper_bound { result ≤ e }
{
    for a in (0..e).rev() {
        if !is_of(mark::read(marks, a), i) {
            return a + 1;
        }
    }
    0
}
