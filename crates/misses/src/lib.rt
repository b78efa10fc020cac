#![tactic(auto)]
// Pairs that surely make nothing: the look and the crossing ask this before all else.
ghost use Rattle.std.specs.Prelude.{◌≡◌};
ghost use Rattle.geom.specs.Plane.{GridSegment};
ghost use Rattle.cross.specs.Sides.{beside};

use geom::Segment;
use turns::Orientation;

// Both ends of other lie on one side of target's line, and neither on it: most pairs. Such a pair makes nothing.
#[tactic(auto, using(turns::proofs::Derived::eq_is_same_number), unfolding(cross::specs::Sides::beside))]
pub fn one_side(target: Segment, other: Segment) -> bool
    requires grid_segment { GridSegment target }
    requires grid_segment_2 { GridSegment other }
    ensures { result ≡ beside target other }
{
    let a = turns::side(target.a, target.b, other.a);
    let b = turns::side(target.a, target.b, other.b);
    a == b && a != Orientation::Straight
}
