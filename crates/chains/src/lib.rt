#![tactic(auto)]
// One segment split at the run of its marks (split/solver.rs `apply`): the chain from a through the marks to b, column by column.
ghost use Rattle.std.specs.Prelude.{◌≡◌, cond, ◌+◌, ◌-◌, ◌*◌, ◌≤◌, ◌<◌, length};
ghost use Rattle.std.specs.Int.Signed.{lt_z};
ghost use Rattle.std.proofs.lemmas.List.Edits.{sets};
ghost use Rattle.whole.specs.Kind.{flat};
ghost use Rattle.geom.specs.Plane.{Countable};
ghost use Rattle.geom.specs.Rows.{segments};
ghost use Rattle.split.specs.Chain.{next_y, last_of, columns, chain, pieces_from};
ghost use Rattle.chains.specs.Steps.{point_at, points, piece_of, pieces_to, taken, joined};

use geom::{Coord, Point, Segment};
use split::mark;

// The pieces of v, cut at the marks of a run, become the rows from number `at` on.
// The size stands beside the run: derived from it, each clause would speak of `length run.now / 3`, which is no plainer.
pub fn cut(work: &mut [i32], at: usize, v: Segment, run: &[i32], size: usize)
    requires countable { Countable v.subject }
    requires countable_2 { Countable v.clip }
    requires size_in_bounds { 3 * size ≤ length run.now }
    requires size_in_bounds_2 { 6 * (at + size) + 6 ≤ length work.old }
    ensures { work.new ≡ sets work.old (6 * at) (flat segments (pieces_from v v.a (chain v (points run.now 0 size)))) }
{
    let mut p = v.a;
    let mut g: usize = 0;
    while g < size {
        let e = column_end(run, g, size);
        let back = falls(p.y, next_y(run, e, size, v.b));
        p = walk(work, at + g, v, p, &run[3 * g..3 * e], e - g, back);
        g = e;
    }
    places::write(work, at + size, piece(v, p, v.b));
}

// Where the column of mark number g ends: the marks of equal x from it on.
fn column_end(run: &[i32], g: usize, size: usize) -> usize
    requires g_lt_size { g < size }
    requires size_in_bounds { 3 * size ≤ length run.now }
    ensures value { result ≡ g + 1 + joined (point_at run.now g) (points run.now (g + 1) (size - (g + 1))) }
    ensures lower_bound { (g < result) × (result ≤ size) }
{
    let mut p = mark::read(run, g).point;
    for e in g + 1..size {
        let q = mark::read(run, e).point;
        if p.x != q.x {
            return e;
        }
        p = q;
    }
    size
}

// From y on to the next one, which lies lower.
fn falls(y: Coord, next: Coord) -> bool
    ensures { result ≡ lt_z next.0 y.0 }
{
    next < y
}

// The y of the point after a column: the next mark in the sorted run, or b.
fn next_y(run: &[i32], e: usize, size: usize, b: Point) -> Coord
    requires e_le_size { e ≤ size }
    requires size_in_bounds { 3 * size ≤ length run.now }
    ensures { result.0 ≡ next_y b (columns (points run.now e (size - e))) }
{
    if e < size {
        mark::read(run, e).point.y
    } else {
        b.y
    }
}

// The pieces of v from p through the marks of a column, the last mark first if `back`, become the rows from number `at` on. The last point.
fn walk(
    work: &mut [i32],
    at: usize,
    v: Segment,
    p: Point,
    column: &[i32],
    size: usize,
    back: bool,
) -> Point
    requires countable { Countable v.subject }
    requires countable_2 { Countable v.clip }
    requires size_in_bounds { 3 * size ≤ length column.now }
    requires size_in_bounds_2 { 6 * (at + size) ≤ length work.old }
    ensures value { result ≡ last_of p (taken back column.now size size) }
    ensures work_after { work.new ≡ sets work.old (6 * at) (flat segments (pieces_to v p (taken back column.now size size))) }
{
    let mut last = p;
    for i in 0..size {
        let q = next_point(column, size, i, back);
        places::write(work, at + i, piece(v, last, q));
        last = q;
    }
    last
}

// Point number i of a column, from its end on if `back`.
fn next_point(column: &[i32], size: usize, i: usize, back: bool) -> Point
    requires i_lt_size { i < size }
    requires size_in_bounds { 3 * size ≤ length column.now }
    ensures { result ≡ point_at column.now (cond back (size - 1 - i) i) }
{
    let k = if back { size - 1 - i } else { i };
    mark::read(column, k).point
}

// The piece of v from p to q, turned if needed.
fn piece(v: Segment, p: Point, q: Point) -> Segment
    requires countable { Countable v.subject }
    requires countable_2 { Countable v.clip }
    ensures { result ≡ piece_of v p q }
{
    let subject = v.subject;
    let clip = v.clip;
    directions::forward(Segment {
        a: p,
        b: q,
        subject,
        clip,
    })
}
