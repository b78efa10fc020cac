// The sums below an edge, read off the scan list.
ghost use Rattle.std.specs.Prelude.{◌≡◌, ◌*◌, ◌≤◌, length, nat_abs};
ghost use Rattle.whole.specs.Kind.{rows_from};
ghost use Rattle.whole.specs.Sum.{All};
ghost use Rattle.geom.specs.Plane.{GridSegment};
ghost use Rattle.scan.specs.Scan.{entries, EntryOf, OnGrids, add_if, sums_of, Reached};

use crate::list::{self, Entry};
use geom::Segment;

#[derive(Clone, Copy, Debug, Default, PartialEq, Eq)]
pub struct Sums {
    pub subject: i64,
    pub clip: i64,
}

impl Sums {
    // With the counts of an entry that counts. No branch, since what lies below an edge cannot be guessed.
    pub(crate) fn add_if(self, hit: bool, t: Entry) -> Sums
        requires subject_bound { (nat_abs self.subject ≤ 4096 * 2147483648) × (nat_abs self.clip ≤ 4096 * 2147483648) }
        requires subject_bound_2 { (nat_abs t.subject ≤ 2147483648) × (nat_abs t.clip ≤ 2147483648) }
        ensures { result ≡ add_if hit self t }
    {
        let times = i64::from(hit);
        Sums {
            subject: self.subject + t.subject * times,
            clip: self.clip + t.clip * times,
        }
    }
}

// The counts of those entries in use that lie below e, where the first of them add up to s.
pub fn sums_below(
    work: &[i32],
    n: usize,
    scan: &[i64],
    used: usize,
    known: usize,
    s: Sums,
    e: Segment,
) -> Sums
    requires n_in_bounds { 6 * n ≤ length work.now }
    requires on_grids { OnGrids work.now n }
    requires grid_segment { GridSegment e }
    requires used_in_bounds { (3 * used ≤ length scan.now) × (used ≤ 2048) × (known ≤ used) }
    requires all { All (EntryOf work.now n) (rows_from entries scan.now 0 used) }
    requires reached { Reached work.now e scan.now known s }
    ensures sums { result ≡ sums_of work.now e (rows_from entries scan.now 0 used) }
    ensures near { (nat_abs result.subject ≤ 2048 * 2147483648) × (nat_abs result.clip ≤ 2048 * 2147483648) }
{
    let mut sum = s;
    for k in known..used {
        let t = list::entry_at(scan, k);
        let v = list::named(work, n, t);
        let hit = edges::is_below(v, e);
        sum = sum.add_if(hit, t);
    }
    sum
}
