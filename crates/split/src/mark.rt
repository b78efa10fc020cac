// Marks in a lent list: rows of three numbers.
ghost use Rattle.std.specs.Prelude.{◌≡◌, ◌+◌, ◌*◌, ◌≤◌, length};
ghost use Rattle.whole.specs.Kind.{row_at, put_row};
ghost use Rattle.split.specs.Marks.{marks as mark_rows};

use crate::answer::Mark;
use geom::{Coord, Point};
use places::row;
use places::row::Row;

impl Row for Mark {
    type Number = i32;

    ghost WIDTH = { mark_rows.width };

    const WIDTH: usize = 3;

    ghost make = { mark_rows.make };

    ghost numbers = { mark_rows.numbers };

    fn from_front(row: &[i32]) -> Mark {
        Mark {
            segment: row[0],
            point: Point {
                x: Coord(row[1]),
                y: Coord(row[2]),
            },
        }
    }

    fn put_front(self, row: &mut [i32]) {
        row[..3].copy_from_slice(&[self.segment, self.point.x.0, self.point.y.0]);
    }
}

// Mark number i: `row::read` of a mark, promised by `row_at`, which all callers cite.
#[tactic(auto, unfolding(whole::specs::Kind::row_at))]
pub fn read(marks: &[i32], i: usize) -> Mark
    requires { 3 * i + 3 ≤ length marks.now }
    ensures { result ≡ row_at mark_rows marks.now i }
{
    row::read(marks, i)
}

// The mark m becomes number i: `row::write` of a mark, promised by `put_row`, which all callers cite.
#[tactic(auto, unfolding(whole::specs::Kind::put_row))]
pub fn write(marks: &mut [i32], i: usize, m: Mark)
    requires { 3 * i + 3 ≤ length marks.old }
    ensures { marks.new ≡ put_row mark_rows marks.old i m }
{
    row::write(marks, i, m)
}
