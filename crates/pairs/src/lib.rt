#![tactic(auto)]
// How any two segments cross, a pair asked alone: first 3 off the grid, then 4 without length.
ghost use Rattle.std.specs.Prelude.{◌≡◌, ◌&&◌};
ghost use Rattle.geom.specs.Plane.{grid_segment};
ghost use Rattle.cross.specs.Cross.{has_length, cross_any};
ghost use Rattle.cross.specs.Said.{cross_says, cross_said};

use cross::answer::{Cross, CrossError};
use geom::Segment;

fn both_on_grid(target: Segment, other: Segment) -> bool
    ensures { result ≡ grid_segment target && grid_segment other }
{
    grid::segment_on_grid(target) && grid::segment_on_grid(other)
}

#[tactic(auto, using(geom::proofs::Derived::eq_is_same_point))]
fn both_have_length(target: Segment, other: Segment) -> bool
    ensures { result ≡ has_length target && has_length other }
{
    target.a != target.b && other.a != other.b
}

// Of any two segments. `radius` is squared.
#[tactic(auto, unfolding(cross::specs::Cross::cross_any, cross::specs::Said::cross_said))]
pub fn cross(target: Segment, other: Segment, radius: u64) -> Result<Option<Cross>, CrossError>
    ensures value { result ≡ cross_any radius target other }
    ensures result_value { cross_says target other result ≡ cross_said radius target other }
{
    if !both_on_grid(target, other) {
        return Err(CrossError::OffGrid);
    }
    if !both_have_length(target, other) {
        return Err(CrossError::NoLength);
    }
    Ok(crossings::crossing(target, other, radius))
}
