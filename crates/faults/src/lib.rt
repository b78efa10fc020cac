#![tactic(auto)]
// What may be wrong with one segment of a list, refusals 3 to 5: off the grid, without length, a count of -2^31.
ghost use Rattle.std.specs.Prelude.{Bool, ◌≡◌, ◌+◌, ◌*◌, ◌≤◌, length};
ghost use Rattle.whole.specs.Kind.{row_at, rows_from};
ghost use Rattle.geom.specs.Rows.{segments};
ghost use Rattle.geom.specs.declared.Segment.{Segment as SegmentOf};
ghost use Rattle.faults.specs.Faults.{some, is_off as off, is_point as point, has_least as least, fault};

use geom::{Count, Segment};

// Of some row of the first n the test holds.
pub fn some_row<F: Fn(Segment) -> bool>(rows: &[i32], n: usize, test: F) -> bool
    requires in_bounds { 6 * n ≤ length rows.now }
    requires callable { F.IsAlwaysCallable test }
    ensures { (p : SegmentOf → Bool) → ((v : SegmentOf) (r : Bool) → F.post test v r → r ≡ p v) → result ≡ some p (rows_from segments rows.now 0 n) }
{
    (0..n).any(
        |i|
            requires in_bounds { 6 * i + 6 ≤ length rows.now }
            requires callable { F.IsAlwaysCallable test }
            ensures { F.post test (row_at segments rows.entry.now i) result }
        { test(places::read(rows, i)) },
    )
}

// 3 to 5: some row has the fault of that number.
pub fn some_fault(rows: &[i32], n: usize, number: u8) -> bool
    requires { 6 * n ≤ length rows.now }
    ensures { result ≡ some (fault number) (rows_from segments rows.now 0 n) }
{
    some_row(
        rows,
        n,
        |v|
            ensures { result ≡ fault number v }
        { has_fault(v, number) },
    )
}

fn has_fault(v: Segment, number: u8) -> bool
    ensures { result ≡ fault number v }
{
    if number == 3 {
        return is_off(v);
    }
    if number == 4 {
        return is_point(v);
    }
    has_least(v)
}

// 3: an end is off the grid.
pub fn is_off(v: Segment) -> bool
    ensures { result ≡ off v }
{
    !grid::segment_on_grid(v)
}

// 4: the ends are the same point.
#[tactic(auto, using(geom::proofs::Derived::eq_is_same_point))]
pub fn is_point(v: Segment) -> bool
    ensures { result ≡ point v }
{
    v.a == v.b
}

// The count that cannot be negated.
const LEAST: Count = Count(i32::MIN);

// 5: a count cannot be negated.
pub fn has_least(v: Segment) -> bool
    ensures { result ≡ least v }
{
    v.subject == LEAST || v.clip == LEAST
}
