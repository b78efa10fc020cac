#![tactic(auto)]
// The byte of an edge, from the sums at its bottom: the mask by the fill rule, and whether the edge is kept.
ghost use Rattle.std.specs.Prelude.{◌≡◌, ◌<◌, ◌+ℤ◌};
ghost use Rattle.std.specs.Int.{w64};
ghost use Rattle.std.proofs.Common.{SFits};
ghost use Rattle.fills.specs.Inside.{number_of};
ghost use Rattle.scan.specs.Scan.{side_by, mask_by, byte_by};
ghost use Rattle.masks.specs.Rules.{fill_number, overlay_number};

use fills::FillRule;
use geom::{Count, Segment};
use rules::OverlayRule;
use scan::sums::Sums;

// The two bits of one side: 1 where it is inside on top, 2 at the bottom.
#[tactic(auto, unfolding(scan::specs::Scan::side_by))]
fn side_bits(fill: FillRule, bottom: i64, count: Count) -> u8
    requires { SFits w64 (bottom +ℤ count.0) }
    ensures value { result ≡ side_by (number_of fill) bottom count.0 }
    ensures upper_bound { result < 4 }
{
    let top = bottom + i64::from(count.0);
    u8::from(fill.is_inside(top)) + 2 * u8::from(fill.is_inside(bottom))
}

// The rules of an overlay: which sums of counts are inside, and which edges are kept.
#[derive(Clone, Copy, Debug, PartialEq, Eq)]
pub struct Rules {
    pub fill: FillRule,
    pub overlay: OverlayRule,
}

impl Rules {
    // The mask of e, with these sums at its bottom.
    #[tactic(auto, unfolding(scan::specs::Scan::mask_by))]
    fn mask(self, s: Sums, e: Segment) -> u8
        requires sfits { SFits w64 (s.subject +ℤ e.subject.0) }
        requires sfits_2 { SFits w64 (s.clip +ℤ e.clip.0) }
        ensures value { result ≡ mask_by (fill_number self) s e }
        ensures upper_bound { result < 16 }
    {
        let subject = side_bits(self.fill, s.subject, e.subject);
        let clip = side_bits(self.fill, s.clip, e.clip);
        subject + 4 * clip
    }

    // A kept edge's byte has 16 added.
    #[tactic(auto, unfolding(scan::specs::Scan::byte_by))]
    pub fn byte(self, s: Sums, e: Segment) -> u8
        requires sfits { SFits w64 (s.subject +ℤ e.subject.0) }
        requires sfits_2 { SFits w64 (s.clip +ℤ e.clip.0) }
        ensures { result ≡ byte_by (fill_number self) (overlay_number self) s e }
    {
        let m = self.mask(s, e);
        if self.overlay.keeps(m) {
            return m + 16;
        }
        m
    }
}

// The byte by the rules' numbers. By a fill rule over 3 nothing is inside, and so nothing is kept.
// By numbers: a public function keeps its promise, for every fill number.
#[tactic(auto, using(crate::proofs::NoRule::byte_by_none))]
pub fn byte(fill: u32, rule: u32, s: Sums, e: Segment) -> u8
    requires rule_bound { rule < 7 }
    requires sfits { SFits w64 (s.subject +ℤ e.subject.0) }
    requires sfits_2 { SFits w64 (s.clip +ℤ e.clip.0) }
    ensures { result ≡ byte_by fill rule s e }
{
    let overlay = OverlayRule::try_from(rule).unwrap();
    match FillRule::try_from(fill) {
        Ok(fill) => Rules { fill, overlay }.byte(s, e),
        Err(_) => 0,
    }
}
