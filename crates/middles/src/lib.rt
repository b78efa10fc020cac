#![tactic(auto)]
// The middle point of two segments that cross, in whole numbers: from target's a, the share n / d of the way to target's b; and how far a point is from their ends.
ghost use Rattle.std.specs.Prelude.{◌≡◌, ◌≢◌, ◌<◌, ◌^◌, ◌+ℤ◌, ◌-ℤ◌, ◌*ℤ◌};
ghost use Rattle.std.specs.Int.Signed.{quot_z};
ghost use Rattle.geom.specs.Plane.{OnGrid, GridPoint, GridSegment, against};
ghost use Rattle.plane.specs.Quotients.{nearest};
ghost use Rattle.middles.specs.Point.{far as far_of, cross_point};
ghost use Rattle.middles.specs.Middle.{Middle, Cut, Share, signed_as, moved_by, end_of};

use geom::{Coord, Point, Segment};

// An end of a segment, and the squared distance of a point from it.
#[derive(Clone, Copy)]
pub struct End {
    pub point: Point,
    pub far: u64,
}

// The number of size q that has the sign of z.
fn signed(z: i64, q: u64) -> i64
    requires { q < 2 ^ 63 }
    ensures { result ≡ signed_as z q }
{
    // `as`: the requires says that it fits.
    let size = q as i64;
    if z < 0 { -size } else { size }
}

// n * a / d to nearest, where n / d is between 0 and 1. The product needs two words; the quotient is no larger than a.
fn share(n: i64, d: i64, a: i64) -> i64
    requires { Share n d a }
    ensures { result ≡ nearest (n *ℤ a) d }
{
    signed(
        a,
        shares::share(n.unsigned_abs(), d.unsigned_abs(), a.unsigned_abs()),
    )
}

fn moved(c: Coord, offset: i64) -> Coord
    requires { OnGrid (c.0 +ℤ offset) }
    ensures { result ≡ moved_by c offset }
{
    // `as`: the requires says that it fits.
    Coord((i64::from(c.0) + offset) as i32)
}

// The squared distance.
pub fn far(p: Point, q: Point) -> u64
    requires grid_point { GridPoint p }
    requires grid_point_2 { GridPoint q }
    ensures { result ≡ far_of p q }
{
    let w = gaps::gap(p.x, q.x).unsigned_abs();
    let h = gaps::gap(p.y, q.y).unsigned_abs();
    w * w + h * h
}

// The nearer end of v, b on a tie.
pub fn nearer(v: Segment, p: Point) -> End
    requires grid_segment { GridSegment v }
    requires grid_point { GridPoint p }
    ensures { result ≡ end_of v p }
{
    let a = far(v.a, p);
    let b = far(v.b, p);
    if a < b {
        End { point: v.a, far: a }
    } else {
        End { point: v.b, far: b }
    }
}

// c, moved by the cut quotient of p against other's line and the gap of f and g: a word holds both.
fn reduced(c: Coord, other: Segment, p: Point, f: Coord, g: Coord) -> Coord
    requires grid_segment { GridSegment other }
    requires grid_point { GridPoint p }
    requires on_grid { OnGrid f.0 }
    requires on_grid_2 { OnGrid g.0 }
    requires cut { Cut (against other p) (f.0 -ℤ g.0) }
    requires on_grid_3 { OnGrid (c.0 +ℤ quot_z (against other p) (f.0 -ℤ g.0)) }
    ensures { result ≡ moved_by c (quot_z (against other p) (f.0 -ℤ g.0)) }
{
    let n = turns::turn(other.a, other.b, p);
    let d = gaps::gap(f, g);
    moved(c, n / d)
}

// On an upright target n / d is reduced by its height.
fn on_upright(target: Segment, other: Segment) -> Point
    requires grid_segment { GridSegment target }
    requires grid_segment_2 { GridSegment other }
    requires middle { Middle target other }
    requires x_value { target.a.x.0 ≡ target.b.x.0 }
    ensures { result ≡ cross_point target other }
{
    let x = target.a.x;
    let y = reduced(target.a.y, other, target.a, other.a.x, other.b.x);
    Point { x, y }
}

// On a level one by its width.
fn on_level(target: Segment, other: Segment) -> Point
    requires grid_segment { GridSegment target }
    requires grid_segment_2 { GridSegment other }
    requires middle { Middle target other }
    requires y_value { target.a.y.0 ≡ target.b.y.0 }
    ensures { result ≡ cross_point target other }
{
    let y = target.a.y;
    let x = reduced(target.a.x, other, target.a, other.b.y, other.a.y);
    Point { x, y }
}

fn on_slope(target: Segment, other: Segment) -> Point
    requires grid_segment { GridSegment target }
    requires grid_segment_2 { GridSegment other }
    requires middle { Middle target other }
    requires x_nonzero { target.a.x.0 ≢ target.b.x.0 }
    requires y_nonzero { target.a.y.0 ≢ target.b.y.0 }
    ensures { result ≡ cross_point target other }
{
    let n = turns::turn(other.a, other.b, target.a);
    let d = n - turns::turn(other.a, other.b, target.b);
    let x = moved(target.a.x, share(n, d, gaps::gap(target.b.x, target.a.x)));
    let y = moved(target.a.y, share(n, d, gaps::gap(target.b.y, target.a.y)));
    Point { x, y }
}

pub fn cross_point(target: Segment, other: Segment) -> Point
    requires grid_segment { GridSegment target }
    requires grid_segment_2 { GridSegment other }
    requires middle { Middle target other }
    ensures { result ≡ cross_point target other }
{
    if target.a.x == target.b.x {
        on_upright(target, other)
    } else if target.a.y == target.b.y {
        on_level(target, other)
    } else {
        on_slope(target, other)
    }
}
