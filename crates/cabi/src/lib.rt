#![tactic(auto)]
// The library for C and Rust: a slice goes over as a pointer and a length, a struct by value.
ghost use Rattle.std.specs.Prelude.{◌≡◌, ◌+◌, ◌≤◌, length, Some, Ok};
ghost use Rattle.cross.specs.Said.{only, cross_says, cross_said};
ghost use Rattle.overlay.specs.Outcome.{outcome};
ghost use Rattle.ending.specs.Lent.{lent};
ghost use Rattle.cabi.specs.Overlay.{settings_of, handed, told};
ghost use Rattle.cabi.specs.Crossing.{segment_from, at_point, report_of, cross_report};

use checks::Settings;
use cross::answer::{Cross, CrossError, Kind};
use geom::{Coord, Count, Point, Segment};
use report::Report;

// How two segments cross. Kind: 0 nothing, 1 Pure, 2 TargetEnd, 3 OtherEnd, 4 Overlay; the mask is that of an Overlay.
#[repr(C)]
#[derive(Clone, Copy)]
pub struct CrossReport {
    pub answer: u64,
    pub kind: u64,
    pub x: i64,
    pub y: i64,
    pub rounded: u64,
    pub mask: u64,
}

// `run::overlay`, with the settings and the answer as numbers.
#[unsafe(no_mangle)]
pub extern "C" fn ciwetanos_overlay(
    input: &[i32],
    n: usize,
    fill: u32,
    rule: u32,
    budget: u32,
    work: &mut [i32],
    marks: &mut [i32],
    scan: &mut [i64],
    masks: &mut [u8],
) -> Report
    ensures { handed result (lent work.new marks.new scan.new masks.new) ≡ told (outcome input.now (settings_of n fill rule budget) (lent work.old marks.old scan.old masks.old)) }
{
    let settings = Settings {
        n,
        fill,
        rule,
        budget,
    };
    run::overlay(input, settings, work, marks, scan, masks).into()
}

// Eight numbers: target a, b, other a, b, at the squared radius 2. Another length is answered 1, a coordinate off the grid 3, a segment without length 4.
#[unsafe(no_mangle)]
#[tactic(auto, using(std::proofs::lemmas::Bool::Decides::nat_tests), unfolding(crate::specs::Crossing::cross_report))]
pub extern "C" fn ciwetanos_cross(pair: &[i32]) -> CrossReport
    ensures { result ≡ cross_report pair.now }
{
    if pair.len() != 8 {
        return plain(1);
    }
    let target = segment_from(pair, 0);
    let other = segment_from(pair, 4);
    reported(target, other)
}

// The segment whose four numbers start at place k.
fn segment_from(pair: &[i32], k: usize) -> Segment
    requires { k + 4 ≤ length pair.now }
    ensures { result ≡ segment_from pair.now k }
{
    Segment {
        a: Point {
            x: Coord(pair[k]),
            y: Coord(pair[k + 1]),
        },
        b: Point {
            x: Coord(pair[k + 2]),
            y: Coord(pair[k + 3]),
        },
        subject: Count(0),
        clip: Count(0),
    }
}

fn reported(target: Segment, other: Segment) -> CrossReport
    ensures { result ≡ report_of (cross_said 2 target other) }
{
    match pairs::cross(target, other, 2) {
        Ok(Some(c)) => found(target, other, c),
        Ok(None) => plain(0),
        Err(CrossError::OffGrid) => plain(3),
        Err(CrossError::NoLength) => plain(4),
    }
}

// An answer and nothing more.
// A number, as the C interface tells it.
fn plain(answer: u64) -> CrossReport
    ensures { result ≡ report_of (only answer) }
{
    CrossReport {
        answer,
        kind: 0,
        x: 0,
        y: 0,
        rounded: 0,
        mask: 0,
    }
}

fn found(target: Segment, other: Segment, c: Cross) -> CrossReport
    ensures { result ≡ report_of (cross_says target other (Ok (Some c))) }
{
    match c.kind {
        Kind::Pure => at(1, c.point, c.rounded, 0),
        Kind::TargetEnd => at(2, c.point, c.rounded, 0),
        Kind::OtherEnd => at(3, c.point, c.rounded, 0),
        Kind::Overlay => at(4, c.point, c.rounded, lines::collinear(target, other)),
    }
}

// The kind is a number, as the C interface tells it.
fn at(kind: u64, p: Point, rounded: bool, mask: u8) -> CrossReport
    ensures { result ≡ report_of (at_point kind p rounded mask) }
{
    CrossReport {
        answer: 0,
        kind,
        x: i64::from(p.x.0),
        y: i64::from(p.y.0),
        rounded: u64::from(rounded),
        mask: u64::from(mask),
    }
}
