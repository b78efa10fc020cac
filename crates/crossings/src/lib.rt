#![tactic(auto)]
// How two segments of the grid cross: by the four signs, and where no end is on the other's line by the middle point.
ghost use Rattle.std.specs.Prelude.{◌≡◌, ℕ, ◌<◌};
ghost use Rattle.geom.specs.Plane.{GridSegment};
ghost use Rattle.turns.specs.Orientation.{number_of};
ghost use Rattle.cross.specs.Cross.{zero, crossing as crossing_of};
ghost use Rattle.crossings.specs.Sides.{SidesOf, same as is_same, zeros as zeros_of, by_sides as made_of};

use cross::answer::{Cross, Kind};
use geom::{Coord, Point, Segment};
use turns::Orientation;

// Where the ends of each of two segments lie against the line of the other.
#[derive(Clone, Copy)]
struct Sides {
    other_a: Orientation,
    other_b: Orientation,
    target_a: Orientation,
    target_b: Orientation,
}

// 1 on the line.
#[tactic(auto, using(turns::proofs::Derived::eq_is_same_number, crate::proofs::OnLine::zero_is))]
fn zero(side: Orientation) -> u8
    ensures { result ≡ zero (number_of side) }
{
    u8::from(side == Orientation::Straight)
}

impl Sides {
    fn of(target: Segment, other: Segment) -> Sides
        requires grid_segment { GridSegment target }
        requires grid_segment_2 { GridSegment other }
        ensures { SidesOf target other result }
    {
        Sides {
            other_a: turns::side(target.a, target.b, other.a),
            other_b: turns::side(target.a, target.b, other.b),
            target_a: turns::side(other.a, other.b, target.a),
            target_b: turns::side(other.a, other.b, target.b),
        }
    }

    // Both ends of one lie the same way against the other.
    #[tactic(auto, using(turns::proofs::Derived::eq_is_same_number))]
    fn same(self) -> bool
        ensures { result ≡ is_same self }
    {
        self.other_a == self.other_b || self.target_a == self.target_b
    }

    // How many ends lie on the other's line.
    fn zeros(self) -> u8
        ensures { result ≡ zeros_of self }
    {
        zero(self.other_a) + zero(self.other_b) + zero(self.target_a) + zero(self.target_b)
    }
}

// Some end is on the other's line. With exactly one and each couple on two sides, that end marks the other.
#[tactic(auto, using(std::proofs::lemmas::Bool::Decides::nat_tests, turns::proofs::Derived::eq_is_same_number, cross::specs::Sides::last_end), unfolding(cross::specs::Cross::cross_by))]
fn on_a_line(target: Segment, other: Segment, sides: Sides) -> Option<Cross>
    requires sides { SidesOf target other sides }
    requires zeros_nonzero { 0 < zeros_of sides }
    ensures { (radius : ℕ) → result ≡ made_of radius target other sides }
{
    let zeros = sides.zeros();
    if zeros == 4 {
        let origin = Point {
            x: Coord(0),
            y: Coord(0),
        };
        return Some(Cross::at(origin, Kind::Overlay, false));
    }
    if 1 < zeros {
        return None;
    }
    if sides.same() {
        return None;
    }
    if sides.other_a == Orientation::Straight {
        return Some(Cross::at(other.a, Kind::OtherEnd, false));
    }
    if sides.other_b == Orientation::Straight {
        return Some(Cross::at(other.b, Kind::OtherEnd, false));
    }
    if sides.target_a == Orientation::Straight {
        return Some(Cross::at(target.a, Kind::TargetEnd, false));
    }
    Some(Cross::at(target.b, Kind::TargetEnd, false))
}

// What two segments make of their four sides. With no end on the other's line it is a middle crossing, or none.
#[tactic(auto, using(std::proofs::lemmas::Bool::Decides::nat_tests, cross::specs::Sides::parted_middle), unfolding(cross::specs::Cross::cross_by))]
fn by_sides(target: Segment, other: Segment, sides: Sides, radius: u64) -> Option<Cross>
    requires grid_segment { GridSegment target }
    requires grid_segment_2 { GridSegment other }
    requires sides { SidesOf target other sides }
    ensures { result ≡ made_of radius target other sides }
{
    if 0 < sides.zeros() {
        return on_a_line(target, other, sides);
    }
    if sides.same() {
        return None;
    }
    Some(snaps::middle(target, other, radius))
}

// Of segments on the grid.
#[tactic(auto, using(cross::specs::Sides::one_side), unfolding(cross::specs::Cross::crossing))]
pub fn crossing(target: Segment, other: Segment, radius: u64) -> Option<Cross>
    requires grid_segment { GridSegment target }
    requires grid_segment_2 { GridSegment other }
    ensures { result ≡ crossing_of radius target other }
{
    if misses::one_side(target, other) {
        return None;
    }
    by_sides(target, other, Sides::of(target, other), radius)
}
