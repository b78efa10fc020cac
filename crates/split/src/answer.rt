// What a mark is, and why a look or tidying is refused.
use geom::Point;

// Segment number `segment` is cut at `point`. In order by the segment, then by the point.
#[derive(Clone, Copy, PartialEq, Eq, PartialOrd, Ord)]
pub struct Mark {
    pub segment: i32,
    pub point: Point,
}

// Why a look is refused.
#[derive(Clone, Copy, Debug, PartialEq, Eq)]
pub enum LookError {
    // More than 2,048 segments, or the list has not so many (1).
    Short,
    // A coordinate off the grid (3).
    OffGrid,
    // A segment with a = b (4).
    NoLength,
    // More marks than the mark list has room for (7).
    MarksFull,
}

// Why nothing is tidied.
#[derive(Clone, Copy, Debug, PartialEq, Eq)]
pub enum TidyError {
    // The list has not so many marks (1).
    Short,
}
