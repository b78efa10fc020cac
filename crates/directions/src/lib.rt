#![tactic(auto)]
// The direction of a segment: it is turned to run forward.
ghost use Rattle.std.specs.Prelude.{◌≡◌};
ghost use Rattle.geom.specs.Plane.{Countable};
ghost use Rattle.directions.specs.Forward.{forward as forward_of};

use geom::Segment;

// A segment with a > b is turned.
#[tactic(auto, using(geom::proofs::Derived::lt_is_before), unfolding(crate::specs::Forward::forward))]
pub fn forward(v: Segment) -> Segment
    requires countable { Countable v.subject }
    requires countable_2 { Countable v.clip }
    ensures { result ≡ forward_of v }
{
    if v.b < v.a { geom::turned(v) } else { v }
}
