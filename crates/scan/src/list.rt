// The scan list: the edges that are live at a node, in the order of the work list.
ghost use Rattle.std.specs.Prelude.{◌≡◌, [], ◌∷◌, ◌+◌, ◌-◌, ◌*◌, ◌≤◌, ◌<◌, length};
ghost use Rattle.whole.specs.Kind.{row_at, put_row};
ghost use Rattle.whole.specs.Append.{Added};
ghost use Rattle.whole.specs.Sum.{keep};
ghost use Rattle.scan.specs.Scan.{entries, entry_of as entry_for, entries_from, named as named_by, EntryOf, live_at};

use geom::{Point, Segment};
use places::row;
use places::row::Row;

// An edge: the number of its segment, and its counts.
#[derive(Clone, Copy, Debug, PartialEq, Eq)]
pub struct Entry {
    pub segment: i64,
    pub subject: i64,
    pub clip: i64,
}

impl Row for Entry {
    type Number = i64;

    ghost WIDTH = { entries.width };

    const WIDTH: usize = 3;

    ghost make = { entries.make };

    ghost numbers = { entries.numbers };

    fn from_front(row: &[i64]) -> Entry {
        Entry {
            segment: row[0],
            subject: row[1],
            clip: row[2],
        }
    }

    // Tried and slower: with `copy_from_slice` of an array of the three, the sweep takes 1.12 times as long.
    fn put_front(self, row: &mut [i64]) {
        row[0] = self.segment;
        row[1] = self.subject;
        row[2] = self.clip;
    }
}

// `row::read` and `row::write` of an entry, promised by `row_at` and `put_row`, which all callers cite.
#[tactic(auto, unfolding(whole::specs::Kind::row_at))]
pub(crate) fn entry_at(scan: &[i64], k: usize) -> Entry
    requires { 3 * k + 3 ≤ length scan.now }
    ensures { result ≡ row_at entries scan.now k }
{
    row::read(scan, k)
}

#[tactic(auto, unfolding(whole::specs::Kind::put_row))]
pub(crate) fn put(scan: &mut [i64], k: usize, t: Entry)
    requires { 3 * k + 3 ≤ length scan.old }
    ensures { scan.new ≡ put_row entries scan.old k t }
{
    row::write(scan, k, t)
}

// One more comes, and is kept if there is room for it.
#[tactic(auto, unfolding(whole::specs::Kind::put_row, whole::specs::Append::put_next, whole::specs::Append::put_all))]
fn push(scan: &mut [i64], room: usize, count: usize, t: Entry) -> usize
    requires room_in_bounds { 3 * room ≤ length scan.old }
    requires count_bound { count ≤ 4096 }
    ensures { Added entries room count scan.old (t ∷ []) result scan.new }
{
    row::push(scan, room, count, t)
}

fn entry_of(i: usize, v: Segment) -> Entry
    requires { i < 2048 }
    ensures { result ≡ entry_for i v }
{
    Entry {
        // `as`: there is no From of usize into i64, and i is below 2,048.
        segment: i as i64,
        subject: i64::from(v.subject.0),
        clip: i64::from(v.clip.0),
    }
}

// The segment that an entry names.
pub(crate) fn named(work: &[i32], n: usize, t: Entry) -> Segment
    requires n_in_bounds { 6 * n ≤ length work.now }
    requires entry_of { EntryOf work.now n t }
    ensures { result ≡ named_by work.now t }
{
    // `as`: the requires says that an entry names a row.
    places::read(work, t.segment as usize)
}

// The segments from i to e enter, if they are live at p.
pub(crate) fn enter(
    work: &[i32],
    scan: &mut [i64],
    room: usize,
    used: usize,
    i: usize,
    e: usize,
    p: Point,
) -> usize
    requires e_in_bounds { 6 * e ≤ length work.now }
    requires i_le_e { i ≤ e }
    requires e_bound { e ≤ 2048 }
    requires room_in_bounds { 3 * room ≤ length scan.old }
    requires used_bound { used ≤ 2048 }
    ensures { Added entries room used scan.old (keep (live_at work.now p) (entries_from work.now i (e - i))) result scan.new }
{
    let mut count = used;
    for k in i..e {
        let v = places::read(work, k);
        if !edges::is_live(v, p) {
            continue;
        }
        count = push(scan, room, count, entry_of(k, v));
    }
    count
}
