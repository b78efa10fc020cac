#![tactic(auto)]
// Two segments on one line: which ends mark the other segment.
ghost use Rattle.std.specs.Prelude.{◌≡◌};
ghost use Rattle.cross.specs.Cross.{inner as is_inner, collinear_mask};

use geom::{Point, Segment};

// p strictly between the ends of v, whichever comes first.
#[tactic(auto, unfolding(cross::specs::Cross::inner))]
fn inner(v: Segment, p: Point) -> bool
    ensures { result ≡ is_inner v p }
{
    order::between(v.a, p, v.b) || order::between(v.b, p, v.a)
}

// Which ends lie strictly between the other's ends: target a 1, target b 2, other a 4, other b 8.
// A number of four bits and no struct of flags: `collinear_mask` and the C interface's `mask` say it so.
#[tactic(auto, unfolding(cross::specs::Cross::collinear_mask))]
pub fn collinear(target: Segment, other: Segment) -> u8
    ensures { result ≡ collinear_mask target other }
{
    let a = u8::from(inner(other, target.a));
    let b = u8::from(inner(other, target.b));
    let c = u8::from(inner(target, other.a));
    let d = u8::from(inner(target, other.b));
    a + 2 * b + 4 * c + 8 * d
}
