// A node of the sweep: ended edges leave the scan list, and their room is used again; then the node's own enter. On the way, what stays is added up.
ghost use Rattle.std.specs.Prelude.{◌≡◌, ◌*◌, ◌≤◌, nat_abs, length};
ghost use Rattle.whole.specs.Kind.{rows_from};
ghost use Rattle.whole.specs.Sum.{All};
ghost use Rattle.geom.specs.Plane.{GridPoint};
ghost use Rattle.scan.specs.Scan.{entries, EntryOf, OnGrids, with_entry, node_of, stays, arrivals, Staying, Known, Holds};

use crate::list::{self, Entry};
use crate::sums::Sums;
use geom::Point;
use std::cmp::Ordering;

// What a node leaves: so many entries in use, and the sums of the first of them below every edge that starts here.
// An Option is no plainer: where nothing is known, `sums_below` starts from none of the entries and no sums, as from any other first part.
#[derive(Clone, Copy, Debug, PartialEq, Eq)]
pub struct Node {
    pub used: usize,
    pub known: usize,
    pub sums: Sums,
}

// The counts of the entries that pass under a point, and whether one passes through it.
// No Option of sums: whether an entry passes through is known only at the end, and `with_entry` states both.
#[derive(Clone, Copy, Debug, PartialEq, Eq)]
struct Below {
    sums: Sums,
    through: bool,
}

#[derive(Clone, Copy, Debug, PartialEq, Eq)]
struct Stayed {
    left: usize,
    below: Below,
}

fn with_entry(h: Ordering, b: Below, t: Entry) -> Below
    requires subject_bound { (nat_abs b.sums.subject ≤ 4096 * 2147483648) × (nat_abs b.sums.clip ≤ 4096 * 2147483648) }
    requires subject_bound_2 { (nat_abs t.subject ≤ 2147483648) × (nat_abs t.clip ≤ 2147483648) }
    ensures { result ≡ with_entry h b t }
{
    let sums = b.sums.add_if(h.is_gt(), t);
    Below {
        sums,
        through: b.through | h.is_eq(),
    }
}

// Of the entries in use only those that are live at p stay.
fn stay(work: &[i32], n: usize, scan: &mut [i64], used: usize, p: Point) -> Stayed
    requires n_in_bounds { 6 * n ≤ length work.now }
    requires on_grids { OnGrids work.now n }
    requires grid_point { GridPoint p }
    requires used_in_bounds { (3 * used ≤ length scan.old) × (used ≤ 2048) }
    requires all { All (EntryOf work.now n) (rows_from entries scan.old 0 used) }
    ensures { Staying work.now p scan.old used result.left result.below scan.new }
{
    let mut left: usize = 0;
    let mut b = Below {
        sums: Sums::default(),
        through: false,
    };
    for k in 0..used {
        let t = list::entry_at(scan, k);
        let v = list::named(work, n, t);
        if !edges::is_live(v, p) {
            continue;
        }
        list::put(scan, left, t);
        left += 1;
        b = with_entry(edges::height_at(v, p), b, t);
    }
    Stayed { left, below: b }
}

// With an entry that passes through p nothing is known: an edge's slope decides.
fn node_of(used: usize, s: Stayed) -> Node
    ensures { result ≡ node_of used s }
{
    let below = s.below;
    if below.through {
        return Node {
            used,
            known: 0,
            sums: Sums::default(),
        };
    }
    Node {
        used,
        known: s.left,
        sums: below.sums,
    }
}

// A node at p, the segments from i to e of a list that is in order or not. Without order the list is made anew.
pub fn arrive(
    work: &[i32],
    n: usize,
    scan: &mut [i64],
    room: usize,
    used: usize,
    i: usize,
    e: usize,
    p: Point,
    sorted: bool,
) -> Node
    requires n_in_bounds { (6 * n ≤ length work.now) × (3 * room ≤ length scan.old) }
    requires on_grids { OnGrids work.now n }
    requires grid_point { GridPoint p }
    requires used_le_room { (used ≤ room) × (room ≤ 2048) }
    requires i_le_e { (i ≤ e) × (e ≤ n) × (n ≤ 2048) }
    requires all { All (EntryOf work.now n) (rows_from entries scan.old 0 used) }
    ensures holds { Holds room scan.old (arrivals work.now n sorted (rows_from entries scan.old 0 used) i e p) result.used scan.new }
    ensures known { Known work.now p (stays work.now sorted (rows_from entries scan.old 0 used) p) result.known result.sums }
{
    if sorted {
        let s = stay(work, n, scan, used, p);
        let all = list::enter(work, scan, room, s.left, i, e, p);
        return node_of(all, s);
    }
    let all = list::enter(work, scan, room, 0, 0, n, p);
    Node {
        used: all,
        known: 0,
        sums: Sums::default(),
    }
}
