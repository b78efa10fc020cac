#![tactic(auto)]
// How far a coordinate is past another, and the one-operation steps of signed sums below it.
ghost use Rattle.std.specs.Prelude.{◌≡◌, ◌-ℤ◌};
ghost use Rattle.std.specs.Int.{w64};
ghost use Rattle.std.proofs.Common.{SFits};
ghost use Rattle.geom.specs.Plane.{OnGrid};

use geom::Coord;

// Two steps of signed sums, public functions that keep their promises; our own code writes `i64::from` and the minus sign.
pub fn wide(x: i32) -> i64
    ensures { result ≡ x }
{
    i64::from(x)
}

pub fn minus(a: i64, b: i64) -> i64
    requires { SFits w64 (a -ℤ b) }
    ensures { result ≡ a -ℤ b }
{
    a - b
}

// How far a is past b.
pub fn gap(a: Coord, b: Coord) -> i64
    requires on_grid { OnGrid a.0 }
    requires on_grid_2 { OnGrid b.0 }
    ensures { result ≡ a.0 -ℤ b.0 }
{
    i64::from(a.0) - i64::from(b.0)
}
