#![tactic(auto)]
// A middle crossing: its point is exact, moved to a near end, or left rounded.
ghost use Rattle.std.specs.Prelude.{◌≡◌, leb, Some};
ghost use Rattle.geom.specs.Plane.{GridPoint, GridSegment};
ghost use Rattle.middles.specs.Middle.{Middle};
ghost use Rattle.cross.specs.Cross.{on_line, on_both, reach, snapped as snapped_by, middle as middle_by, cross_point};
ghost use Rattle.cross.specs.Middle.{nearest_end};

use cross::answer::{Cross, Kind};
use geom::{Point, Segment};
use turns::Orientation;

#[tactic(auto, using(turns::proofs::Derived::eq_is_same_number, cross::specs::Sides::side_on_line))]
fn on_line(v: Segment, p: Point) -> bool
    requires grid_segment { GridSegment v }
    requires grid_point { GridPoint p }
    ensures { result ≡ on_line v p }
{
    turns::side(v.a, v.b, p) == Orientation::Straight
}

// Some end of v is within the radius of p.
#[tactic(auto, using(std::proofs::lemmas::Bool::Decides::nat_tests), unfolding(middles::specs::Point::reach))]
fn near(v: Segment, p: Point, radius: u64) -> bool
    requires grid_segment { GridSegment v }
    requires grid_point { GridPoint p }
    ensures { result ≡ leb (reach v p) radius }
{
    middles::far(v.a, p) <= radius || middles::far(v.b, p) <= radius
}

// The nearest of the four ends, target's on a tie.
fn nearest_end(target: Segment, other: Segment, p: Point) -> Cross
    requires grid_segment { GridSegment target }
    requires grid_segment_2 { GridSegment other }
    requires grid_point { GridPoint p }
    ensures { Some result ≡ nearest_end target other p }
{
    let e = middles::nearer(target, p);
    let f = middles::nearer(other, p);
    if e.far <= f.far {
        return Cross::at(e.point, Kind::TargetEnd, true);
    }
    Cross::at(f.point, Kind::OtherEnd, true)
}

// Most points are farther than the radius from all four ends and stay.
#[tactic(auto, unfolding(cross::specs::Cross::snapped))]
fn snapped(target: Segment, other: Segment, p: Point, radius: u64) -> Cross
    requires grid_segment { GridSegment target }
    requires grid_segment_2 { GridSegment other }
    requires grid_point { GridPoint p }
    ensures { Some result ≡ snapped_by radius target other p }
{
    if near(target, p, radius) || near(other, p, radius) {
        return nearest_end(target, other, p);
    }
    Cross::at(p, Kind::Pure, true)
}

#[tactic(auto, unfolding(cross::specs::Cross::on_both))]
fn on_both(target: Segment, other: Segment, p: Point) -> bool
    requires grid_segment { GridSegment target }
    requires grid_segment_2 { GridSegment other }
    requires grid_point { GridPoint p }
    ensures { result ≡ on_both target other p }
{
    on_line(target, p) && on_line(other, p)
}

// Of segments that cross inside both. `radius` is squared.
#[tactic(auto, using(middles::proofs::Boxes::middle_on_grid), unfolding(cross::specs::Cross::middle))]
pub fn middle(target: Segment, other: Segment, radius: u64) -> Cross
    requires grid_segment { GridSegment target }
    requires grid_segment_2 { GridSegment other }
    requires middle { Middle target other }
    ensures { Some result ≡ middle_by radius target other (cross_point target other) }
{
    let p = middles::cross_point(target, other);
    if on_both(target, other, p) {
        return Cross::at(p, Kind::Pure, false);
    }
    snapped(target, other, p, radius)
}
