#![tactic(auto)]
// The turn of three points: two products of gaps, one less the other.
ghost use Rattle.std.specs.Prelude.{◌≡◌, ◌-ℤ◌, ◌*ℤ◌};
ghost use Rattle.geom.specs.Plane.{OnGrid, GridPoint, turn as turn_of, side_of};
ghost use Rattle.turns.specs.Orientation.{number_of};

use geom::{Coord, Point};
use std::cmp::Ordering;

// Where the way over three points goes at the second: the third lies right of the way on, on its line, or left of it.
#[derive(Clone, Copy, PartialEq, Eq)]
pub enum Orientation {
    Right,
    Straight,
    Left,
}

// The product of two gaps.
fn area(a: Coord, b: Coord, c: Coord, d: Coord) -> i64
    requires on_grid { OnGrid a.0 }
    requires on_grid_2 { OnGrid b.0 }
    requires on_grid_3 { OnGrid c.0 }
    requires on_grid_4 { OnGrid d.0 }
    ensures { result ≡ (a.0 -ℤ b.0) *ℤ (c.0 -ℤ d.0) }
{
    gaps::gap(a, b) * gaps::gap(c, d)
}

// Over 0 where q lies left of the way from o to p. It fits 64 bits because differences on the grid stay below 2^31.
pub fn turn(o: Point, p: Point, q: Point) -> i64
    requires grid_point { GridPoint o }
    requires grid_point_2 { GridPoint p }
    requires grid_point_3 { GridPoint q }
    ensures { result ≡ turn_of o p q }
{
    area(p.x, o.x, q.y, o.y) - area(p.y, o.y, q.x, o.x)
}

// The sign of the turn.
#[tactic(auto, unfolding(geom::specs::Plane::side_of))]
pub fn side(o: Point, p: Point, q: Point) -> Orientation
    requires grid_point { GridPoint o }
    requires grid_point_2 { GridPoint p }
    requires grid_point_3 { GridPoint q }
    ensures { number_of result ≡ side_of o p q }
{
    match turn(o, p, q).cmp(&0) {
        Ordering::Less => Orientation::Right,
        Ordering::Equal => Orientation::Straight,
        Ordering::Greater => Orientation::Left,
    }
}
