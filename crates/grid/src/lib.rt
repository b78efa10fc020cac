#![tactic(auto)]
// What lies on the grid: a coordinate from -2^30 to 2^30 - 1, a point of two such, a segment of two such points.
ghost use Rattle.std.specs.Prelude.{◌≡◌};
ghost use Rattle.geom.specs.Plane.{on_grid, grid_point, grid_segment};

use geom::{Coord, Point, Segment};

// The grid's coordinates begin at -LIMIT and end before LIMIT.
const LIMIT: i32 = 1 << 30;

#[tactic(auto, unfolding(geom::specs::Plane::on_grid))]
pub fn on_grid(c: Coord) -> bool
    ensures { result ≡ on_grid c.0 }
{
    (-LIMIT..LIMIT).contains(&c.0)
}

#[tactic(auto, unfolding(geom::specs::Plane::grid_point))]
pub fn point_on_grid(p: Point) -> bool
    ensures { result ≡ grid_point p }
{
    on_grid(p.x) && on_grid(p.y)
}

#[tactic(auto, unfolding(geom::specs::Plane::grid_segment))]
pub fn segment_on_grid(v: Segment) -> bool
    ensures { result ≡ grid_segment v }
{
    point_on_grid(v.a) && point_on_grid(v.b)
}
