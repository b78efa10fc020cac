// What a crossing is.
ghost use Rattle.std.specs.Prelude.{◌≡◌, Some};
ghost use Rattle.cross.specs.Cross.{found};

use geom::Point;

#[derive(Clone, Copy)]
pub enum Kind {
    // Inside both: both are marked.
    Pure,
    // An end of the target: the other is marked.
    TargetEnd,
    // An end of the other: the target is marked.
    OtherEnd,
    // On one line: the mask says which ends mark the other segment.
    Overlay,
}

#[derive(Clone, Copy)]
pub struct Cross {
    pub point: Point,
    pub kind: Kind,
    pub rounded: bool,
}

impl Cross {
    pub fn at(point: Point, kind: Kind, rounded: bool) -> Cross
        ensures { Some result ≡ found point kind rounded }
    {
        Cross {
            point,
            kind,
            rounded,
        }
    }
}

// Why a pair has no answer.
#[derive(Clone, Copy, PartialEq, Eq)]
pub enum CrossError {
    // A coordinate off the grid (3).
    OffGrid,
    // A segment with a = b (4).
    NoLength,
}
