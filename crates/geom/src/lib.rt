#![tactic(auto)]
// Points and segments: the types, and a segment turned.
// A coordinate and a count are both 32-bit numbers and are types of their own, so that the compiler refuses one for the other.
ghost use Rattle.std.specs.Prelude.{◌≡◌};
ghost use Rattle.geom.specs.Plane.{Countable, neg_count, turned as turned_of};

#[derive(Clone, Copy, PartialEq, Eq, PartialOrd, Ord)]
pub struct Coord(pub i32);

#[derive(Clone, Copy, PartialEq, Eq, PartialOrd, Ord)]
pub struct Count(pub i32);

#[derive(Clone, Copy, PartialEq, Eq, PartialOrd, Ord)]
pub struct Point {
    pub x: Coord,
    pub y: Coord,
}

#[derive(Clone, Copy, PartialEq, Eq, PartialOrd, Ord)]
pub struct Segment {
    pub a: Point,
    pub b: Point,
    pub subject: Count,
    pub clip: Count,
}

fn negated(c: Count) -> Count
    requires { Countable c }
    ensures { result ≡ neg_count c }
{
    Count(-c.0)
}

// The same stretch from its end to its start, counted the other way round.
pub fn turned(v: Segment) -> Segment
    requires countable { Countable v.subject }
    requires countable_2 { Countable v.clip }
    ensures { result ≡ turned_of v }
{
    Segment {
        a: v.b,
        b: v.a,
        subject: negated(v.subject),
        clip: negated(v.clip),
    }
}
