#![tactic(auto)]
// Open outlines, refusal 6: whether at some end of a row what starts is not what ends.
ghost use Rattle.std.specs.Prelude.{◌≡◌, ◌+◌, ◌*◌, ◌≤◌, nat_abs, length};
ghost use Rattle.whole.specs.Kind.{rows_from};
ghost use Rattle.geom.specs.Rows.{segments};
ghost use Rattle.outlines.specs.Open.{is_open};
ghost use Rattle.outlines.specs.Net.{changed_by, counted_at, net_at, is_uneven, has_open_end};

use geom::{Count, Point, Segment};

// What starts at a point less what ends there.
// Not scan's `Sums`, which stands above: `net_at` and `is_uneven` speak of this one.
#[derive(Clone, Copy)]
struct Net {
    subject: i64,
    clip: i64,
}

// At an end of some row what starts is not what ends.
pub fn some_open(rows: &[i32], n: usize) -> bool
    requires n_bound { n ≤ 2048 }
    requires n_in_bounds { 6 * n ≤ length rows.now }
    ensures { result ≡ is_open (rows_from segments rows.now 0 n) }
{
    faults::some_row(rows, n, |v| open_end(rows, n, v))
}

#[tactic(auto, unfolding(crate::specs::Net::has_open_end))]
fn open_end(rows: &[i32], n: usize, v: Segment) -> bool
    requires n_bound { n ≤ 2048 }
    requires n_in_bounds { 6 * n ≤ length rows.now }
    ensures { result ≡ has_open_end (rows_from segments rows.now 0 n) v }
{
    uneven(net_at(rows, n, v.a)) || uneven(net_at(rows, n, v.b))
}

fn uneven(net: Net) -> bool
    ensures { result ≡ is_uneven net }
{
    net.subject != 0 || net.clip != 0
}

fn net_at(rows: &[i32], n: usize, p: Point) -> Net
    requires n_bound { n ≤ 2048 }
    requires n_in_bounds { 6 * n ≤ length rows.now }
    ensures { result ≡ net_at p (rows_from segments rows.now 0 n) }
{
    let mut net = Net {
        subject: 0,
        clip: 0,
    };
    for j in 0..n {
        net = counted(net, places::read(rows, j), p);
    }
    net
}

// The counts of v are added where it starts at p, and taken away where it ends there.
fn counted(net: Net, v: Segment, p: Point) -> Net
    requires subject_bound { nat_abs net.subject ≤ 4096 * 2147483648 }
    requires clip_bound { nat_abs net.clip ≤ 4096 * 2147483648 }
    ensures value { result ≡ counted_at p net v }
    ensures subject_bound_2 { (nat_abs result.subject ≤ nat_abs net.subject + 2147483648) × (nat_abs result.clip ≤ nat_abs net.clip + 2147483648) }
{
    let starts = p == v.a;
    let ends = p == v.b;
    Net {
        subject: changed(net.subject, v.subject, starts, ends),
        clip: changed(net.clip, v.clip, starts, ends),
    }
}

#[tactic(auto, unfolding(crate::specs::Net::changed_by))]
fn changed(sum: i64, c: Count, starts: bool, ends: bool) -> i64
    requires { nat_abs sum ≤ 4096 * 2147483648 }
    ensures value { result ≡ changed_by starts ends c.0 sum }
    ensures result_bound { nat_abs result ≤ nat_abs sum + 2147483648 }
{
    match (starts, ends) {
        (true, false) => sum + i64::from(c.0),
        (false, true) => sum - i64::from(c.0),
        _ => sum,
    }
}
