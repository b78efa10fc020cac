#![tactic(auto)]
// Tests of points: their order, which lie between others, which are the same.
ghost use Rattle.std.specs.Prelude.{◌≡◌};
ghost use Rattle.std.specs.Int.Signed.{lt_z};
ghost use Rattle.geom.specs.Plane.{before as is_before, between as is_between, sameZ, same_point};

use geom::{Coord, Point};

// Public functions that keep their promises, in the definitions' words; our own code writes the operators.
pub fn less(a: Coord, b: Coord) -> bool
    ensures { result ≡ lt_z a.0 b.0 }
{
    a < b
}

pub fn same(a: Coord, b: Coord) -> bool
    ensures { result ≡ sameZ a.0 b.0 }
{
    a == b
}

// x first, then y.
#[tactic(auto, using(geom::proofs::Derived::lt_is_before))]
pub fn before(p: Point, q: Point) -> bool
    ensures { result ≡ is_before p q }
{
    p < q
}

// q strictly between p and r.
#[tactic(auto, using(geom::proofs::Derived::lt_is_before), unfolding(geom::specs::Plane::between))]
pub fn between(p: Point, q: Point, r: Point) -> bool
    ensures { result ≡ is_between p q r }
{
    p < q && q < r
}

#[tactic(auto, using(geom::proofs::Derived::eq_is_same_point))]
pub fn same_point(p: Point, q: Point) -> bool
    ensures { result ≡ same_point p q }
{
    p == q
}
