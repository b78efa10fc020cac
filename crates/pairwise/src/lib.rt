#![tactic(auto)]
// The look over every pair of a list (split/solver.rs): its marks go into a lent list.
ghost use Rattle.std.specs.Prelude.{false, [], ◌∷◌, ◌≡◌, ◌+◌, ◌*◌, ◌≤◌, ◌<◌, ◌^◌, length};
ghost use Rattle.whole.specs.Append.{Added};
ghost use Rattle.whole.specs.Kind.{rows_from};
ghost use Rattle.geom.specs.Limits.{mark_room};
ghost use Rattle.geom.specs.Plane.{GridSegment};
ghost use Rattle.geom.specs.Rows.{segments};
ghost use Rattle.faults.specs.Faults.{some, is_off};
ghost use Rattle.split.specs.Marks.{marks as mark_rows};
ghost use Rattle.split.specs.Look.{mark as mark_at, one, line_marks, pair_marks, look as marks_of};
ghost use Rattle.split.specs.Looked.{counted, look_answer};
ghost use Rattle.pairwise.specs.Listed.{look_list};
ghost use Rattle.split.specs.Said.{look_says, look_said};

use cross::answer::Kind;
use geom::{Point, Segment};
use split::answer::{LookError, Mark};
use split::mark;

// Two segments of the list and their numbers.
#[derive(Clone, Copy)]
struct Couple {
    i: usize,
    j: usize,
    target: Segment,
    other: Segment,
    ghost i_bound: { i < 2 ^ 31 },
    ghost j_bound: { j < 2 ^ 31 },
    ghost grid_target: { GridSegment target },
    ghost grid_other: { GridSegment other },
}

// Every pair i < j of the first n segments, i target and j other, with the squared radius of snapping: their marks stand at the front of the list.
pub fn look(work: &[i32], n: usize, radius: u64, marks: &mut [i32]) -> Result<usize, LookError>
    ensures value { result ≡ look_answer radius work.now n marks.old }
    ensures result_value { look_says result ≡ look_said radius work.now n marks.old }
    ensures marks_after { marks.new ≡ look_list result (marks_of radius (rows_from segments work.now 0 n)) marks.old }
{
    // Not by `rooms::work_room`: the edit limit_2049 plants its mistake here.
    if 2048 < n || work.len() < 6 * n {
        return Err(LookError::Short);
    }
    // By number and not by `some_row`: with that a look of no rows takes 1.7 to 2.3 of its time, since the loops are not tested for none first.
    if faults::some_fault(work, n, 3) {
        return Err(LookError::OffGrid);
    }
    if faults::some_fault(work, n, 4) {
        return Err(LookError::NoLength);
    }
    pairs(work, n, radius, marks)
}

// The look ends at once when the list is full and another mark comes; it is then cleared.
fn pairs(work: &[i32], n: usize, radius: u64, marks: &mut [i32]) -> Result<usize, LookError>
    requires n_in_bounds { 6 * n ≤ length work.now }
    requires n_bound { n ≤ 2 ^ 31 }
    requires n_value { some is_off (rows_from segments work.now 0 n) ≡ false }
    ensures value { result ≡ counted (mark_room (length marks.old)) (marks_of radius (rows_from segments work.now 0 n)) }
    ensures marks_after { marks.new ≡ look_list result (marks_of radius (rows_from segments work.now 0 n)) marks.old }
{
    let room = rooms::mark_room(marks.len());
    let mut count: usize = 0;
    'pairs: for i in 0..n {
        let target = places::read(work, i);
        for j in i + 1..n {
            let other = places::read(work, j);
            let couple = Couple {
                i,
                j,
                target,
                other,
            };
            count = pair(couple, radius, marks, room, count);
            if room < count {
                break 'pairs;
            }
        }
    }
    if room < count {
        marks.fill(0);
        return Err(LookError::MarksFull);
    }
    Ok(count)
}

// The marks of one pair come to a list that holds `count`. Most pairs end at the first test.
// List, room and count stay three parameters: a struct that held the `&mut` list would owe in each contract that it still holds this list and room, two clauses for two parameters.
#[tactic(auto, using(whole::specs::AppendLaws::added_none, cross::specs::Sides::one_side), unfolding(split::specs::Look::cross_marks))]
fn pair(couple: Couple, radius: u64, marks: &mut [i32], room: usize, count: usize) -> usize
    requires room_in_bounds { 3 * room ≤ length marks.old }
    requires count_le_room { count ≤ room }
    ensures { Added mark_rows room count marks.old (pair_marks radius couple.i couple.j couple.target couple.other) result marks.new }
{
    if misses::one_side(couple.target, couple.other) {
        return count;
    }
    crossed(couple, radius, marks, room, count)
}

// The marks of a pair by its crossing.
#[tactic(auto, using(whole::specs::AppendLaws::added_none), unfolding(split::specs::Look::cross_marks, split::specs::Look::kind_marks))]
fn crossed(couple: Couple, radius: u64, marks: &mut [i32], room: usize, count: usize) -> usize
    requires room_in_bounds { 3 * room ≤ length marks.old }
    requires count_le_room { count ≤ room }
    ensures { Added mark_rows room count marks.old (pair_marks radius couple.i couple.j couple.target couple.other) result marks.new }
{
    let Some(c) = crossings::crossing(couple.target, couple.other, radius) else {
        return count;
    };
    let p = c.point;
    match c.kind {
        Kind::Pure => {
            let next = push(marks, room, count, couple.i, p);
            push(marks, room, next, couple.j, p)
        }
        Kind::TargetEnd => push(marks, room, count, couple.j, p),
        Kind::OtherEnd => push(marks, room, count, couple.i, p),
        Kind::Overlay => overlay(couple, marks, room, count),
    }
}

// Collinear segments: a mark for each bit of the mask.
fn overlay(couple: Couple, marks: &mut [i32], room: usize, count: usize) -> usize
    requires room_in_bounds { 3 * room ≤ length marks.old }
    requires count_le_room { count ≤ room }
    ensures { Added mark_rows room count marks.old (line_marks couple.i couple.j couple.target couple.other) result marks.new }
{
    let Couple {
        i,
        j,
        target,
        other,
    } = couple;
    let mask = lines::collinear(target, other);
    let c1 = push_if(mask % 2 == 1, marks, room, count, j, target.a);
    let c2 = push_if(mask / 2 % 2 == 1, marks, room, c1, j, target.b);
    let c3 = push_if(mask / 4 % 2 == 1, marks, room, c2, i, other.a);
    push_if(mask / 8 % 2 == 1, marks, room, c3, i, other.b)
}

#[tactic(auto, using(whole::specs::AppendLaws::added_none), unfolding(split::specs::Look::one))]
fn push_if(
    hit: bool,
    marks: &mut [i32],
    room: usize,
    count: usize,
    segment: usize,
    p: Point,
) -> usize
    requires room_in_bounds { 3 * room ≤ length marks.old }
    requires count_bound { count ≤ room + 3 }
    requires segment_bound { segment < 2 ^ 31 }
    ensures added { Added mark_rows room count marks.old (one hit (mark_at segment p)) result marks.new }
    ensures one_more { result ≤ count + 1 }
{
    if hit {
        return push(marks, room, count, segment, p);
    }
    count
}

// Mark number `count`: counted always, and kept if there is room for it.
#[tactic(auto, using(std::proofs::lemmas::Bool::Decides::nat_tests, std::proofs::lemmas::Int::to_z_pos), unfolding(whole::specs::Append::put_all, whole::specs::Append::put_next))]
fn push(marks: &mut [i32], room: usize, count: usize, segment: usize, p: Point) -> usize
    requires room_in_bounds { 3 * room ≤ length marks.old }
    requires count_bound { count ≤ room + 3 }
    requires segment_bound { segment < 2 ^ 31 }
    ensures { Added mark_rows room count marks.old (mark_at segment p ∷ []) result marks.new }
{
    if room <= count {
        return count + 1;
    }
    // `as`: the requires says that it fits.
    let m = Mark {
        segment: segment as i32,
        point: p,
    };
    mark::write(marks, count, m);
    count + 1
}
