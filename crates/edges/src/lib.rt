#![tactic(auto)]
// The tests of edges that a sweep makes: what is live at a node, what lies below an edge, and where a point lies by an edge's line. No counts are read.
ghost use Rattle.std.specs.Prelude.{◌≡◌};
ghost use Rattle.geom.specs.Plane.{GridPoint, GridSegment};
ghost use Rattle.edges.specs.Below.{alive, under, below, live, height_at, under_at};

use geom::{Coord, Point, Segment};
use std::cmp::Ordering;

// Whether t has begun at p and does not end there, nor left of it: an upright edge never is.
#[tactic(auto, using(crate::proofs::Height::le_is_not_before), unfolding(crate::specs::Below::live))]
pub fn is_live(t: Segment, p: Point) -> bool
    ensures { result ≡ live p t }
{
    t.a <= p && p.x < t.b.x
}

// Whether t lies below e just right of e.a; of an upright e, at its a or below.
#[tactic(auto, unfolding(crate::specs::Below::below))]
pub fn is_below(t: Segment, e: Segment) -> bool
    requires grid_segment { GridSegment t }
    requires grid_segment_2 { GridSegment e }
    ensures { result ≡ below t e }
{
    is_alive(t, e.a.x) && is_under(t, e)
}

#[tactic(auto, unfolding(crate::specs::Below::alive))]
fn is_alive(t: Segment, x: Coord) -> bool
    ensures { result ≡ alive x.0 t }
{
    t.a.x <= x && x < t.b.x
}

// The turn at e.a decides, unless e.a lies on t's line: then e's slope does.
#[tactic(auto, using(crate::proofs::Under::lies_under, crate::proofs::Under::lies_on, crate::proofs::Under::lies_over))]
fn is_under(t: Segment, e: Segment) -> bool
    requires grid_segment { GridSegment t }
    requires grid_segment_2 { GridSegment e }
    ensures { result ≡ under t e }
{
    // Tried with a match on `height_at`: the sweep is slower by 7 % then, over the bar of 5 %.
    let height = turns::turn(t.a, t.b, e.a);
    if height < 0 {
        return false;
    }
    0 < height || is_under_at(t, e)
}

// Whether p lies over t's line, on it or under it.
pub fn height_at(t: Segment, p: Point) -> Ordering
    requires grid_segment { GridSegment t }
    requires grid_point { GridPoint p }
    ensures { result ≡ height_at t p }
{
    turns::turn(t.a, t.b, p).cmp(&0)
}

// Where e.a lies on t's line, e runs above t just if its b lies over that line: so the lesser slope is one more turn.
#[tactic(auto, using(crate::proofs::Height::eq_is_same, crate::proofs::Height::is_gt_height), unfolding(geom::specs::Plane::upright))]
fn is_under_at(t: Segment, e: Segment) -> bool
    requires grid_segment { GridSegment t }
    requires grid_segment_2 { GridSegment e }
    ensures { result ≡ under_at t e }
{
    e.a.x == e.b.x || height_at(t, e.b).is_gt()
}
