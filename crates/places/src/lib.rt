#![tactic(auto)]
// A segment as a row of six numbers of a lent list ("Input and answer"): a.x, a.y, b.x, b.y, subject count, clip count.
pub mod row;

ghost use Rattle.std.specs.Prelude.{◌≡◌, ◌+◌, ◌*◌, ◌≤◌, length};
ghost use Rattle.whole.specs.Kind.{row_at, put_row};
ghost use Rattle.geom.specs.Rows.{segments, point_from};

use crate::row::Row;
use geom::{Coord, Count, Point, Segment};

impl Row for Segment {
    type Number = i32;

    ghost WIDTH = { segments.width };

    const WIDTH: usize = 6;

    ghost make = { segments.make };

    ghost numbers = { segments.numbers };

    fn from_front(row: &[i32]) -> Segment {
        Segment {
            a: point_from(row, 0),
            b: point_from(row, 2),
            subject: Count(row[4]),
            clip: Count(row[5]),
        }
    }

    fn put_front(self, row: &mut [i32]) {
        let Segment {
            a,
            b,
            subject,
            clip,
        } = self;
        row[..6].copy_from_slice(&[a.x.0, a.y.0, b.x.0, b.y.0, subject.0, clip.0]);
    }
}

fn point_from(row: &[i32], k: usize) -> Point
    requires { k + 2 ≤ length row.now }
    ensures { result ≡ point_from row.now k }
{
    Point {
        x: Coord(row[k]),
        y: Coord(row[k + 1]),
    }
}

// Row number i: `row::read` of a segment, promised by `row_at`, which all callers cite.
#[tactic(auto, unfolding(whole::specs::Kind::row_at))]
pub fn read(rows: &[i32], i: usize) -> Segment
    requires { 6 * i + 6 ≤ length rows.now }
    ensures { result ≡ row_at segments rows.now i }
{
    row::read(rows, i)
}

// The segment v becomes row number i: `row::write` of a segment, promised by `put_row`, which all callers cite.
#[tactic(auto, unfolding(whole::specs::Kind::put_row))]
pub fn write(rows: &mut [i32], i: usize, v: Segment)
    requires { 6 * i + 6 ≤ length rows.old }
    ensures { rows.new ≡ put_row segments rows.old i v }
{
    row::write(rows, i, v)
}
