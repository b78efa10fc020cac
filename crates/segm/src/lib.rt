#![tactic(auto)]
// Equal neighbours of one list merged (segm/merge.rs).
ghost use Rattle.std.specs.Prelude.{◌≡◌, cond, Ok, Err, ◌+◌, ◌*◌, ◌≤◌, ◌<◌, pos, nat_abs, length, replicate};
ghost use Rattle.std.proofs.lemmas.List.Edits.{sets};
ghost use Rattle.whole.specs.Kind.{rows_from, flat};
ghost use Rattle.geom.specs.Rows.{segments};
ghost use Rattle.segm.specs.Merge.{same_ends, merge_answer, merge_list, answer_of, list_of, merge_says, merge_said};
ghost use Rattle.groups.specs.Group.{joint, far_group, left, alone as alone_of};

use geom::Segment;
use groups::Group;

// What merging leaves: how many segments, and whether equal neighbours were found.
#[derive(Clone, Copy, Debug, PartialEq, Eq)]
pub struct Merged {
    pub left: usize,
    pub joined: bool,
}

// Why nothing was merged.
#[derive(Clone, Copy, Debug, PartialEq, Eq)]
pub enum MergeError {
    // The list is too short (1).
    Short,
    // A group's total leaves ±(2^31 - 1) (9).
    TooBig,
}

// The first n rows become their merged segments, in place, and the rest stays. After 9 the list is wholly zero.
pub fn merge(work: &mut [i32], n: usize) -> Result<Merged, MergeError>
    ensures value { result ≡ merge_answer work.old n }
    ensures result_value { merge_says result ≡ merge_said work.old n }
    ensures work_after { work.new ≡ merge_list work.old n }
{
    // Not by `rooms::work_room`: the edits limit_doubled and one_number_short_passes plant their mistakes here.
    if 2048 < n || work.len() < 6 * n {
        return Err(MergeError::Short);
    }
    if n == 0 {
        return Ok(Merged {
            left: 0,
            joined: false,
        });
    }
    merge_rows(work, n)
}

// One pass: w rows are written, and the group of the rows before i is open.
fn merge_rows(work: &mut [i32], n: usize) -> Result<Merged, MergeError>
    requires n_nonzero { 0 < n }
    requires n_bound { n ≤ 2048 }
    requires n_in_bounds { 6 * n ≤ length work.old }
    ensures value { result ≡ answer_of (rows_from segments work.old 0 n) }
    ensures work_after { work.new ≡ list_of work.old (rows_from segments work.old 0 n) }
{
    let mut g = alone(places::read(work, 0), false);
    let mut w: usize = 0;
    for i in 1..n {
        let v = places::read(work, i);
        if same_ends(g, v) {
            g = groups::join(g, v);
        } else {
            w = close(work, w, g)?;
            g = alone(v, g.met);
        }
    }
    let left = close(work, w, g)?;
    Ok(Merged {
        left,
        joined: g.met,
    })
}

// What the group leaves becomes row number w; the number of rows written then. A total that is outside clears the list (9).
#[tactic(auto, using(crate::proofs::Run::totals_fit))]
fn close(work: &mut [i32], w: usize, g: Group) -> Result<usize, MergeError>
    requires { 6 * w + 6 ≤ length work.old }
    ensures value { result ≡ cond (far_group g) (Err MergeError.TooBig) (Ok (w + length (left g))) }
    ensures work_after { work.new ≡ cond (far_group g) (replicate (length work.old) (pos 0)) (sets work.old (6 * w) (flat segments (left g))) }
{
    if groups::too_big(g) {
        work.fill(0);
        return Err(MergeError::TooBig);
    }
    Ok(groups::close(work, w, g))
}

fn alone(v: Segment, met: bool) -> Group
    ensures value { result ≡ alone_of v met }
    ensures subject_bound { (nat_abs result.subject ≤ 2147483648) × (nat_abs result.clip ≤ 2147483648) }
{
    Group {
        a: v.a,
        b: v.b,
        subject: i64::from(v.subject.0),
        clip: i64::from(v.clip.0),
        met,
    }
}

#[tactic(auto, using(geom::proofs::Derived::eq_is_same_point), unfolding(crate::specs::Merge::same_ends))]
fn same_ends(g: Group, v: Segment) -> bool
    ensures { result ≡ same_ends (joint g) v }
{
    g.a == v.a && g.b == v.b
}
