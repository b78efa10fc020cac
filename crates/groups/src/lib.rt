#![tactic(auto)]
// Equal neighbours as one: a group, how it grows, and what it leaves.
ghost use Rattle.std.specs.Prelude.{◌≡◌, ◌+◌, ◌*◌, ◌≤◌, nat_abs, length};
ghost use Rattle.std.proofs.lemmas.List.Edits.{sets};
ghost use Rattle.std.specs.Int.{w32};
ghost use Rattle.std.proofs.Common.{SFits};
ghost use Rattle.whole.specs.Kind.{flat};
ghost use Rattle.geom.specs.Rows.{segments};
ghost use Rattle.groups.specs.Group.{is_far, joint, with_one, far_group, is_dropped, left};

use geom::{Count, Point, Segment};

// Equal neighbours as one: their ends and totals, and whether an equal pair was met up to here.
#[derive(Clone, Copy, PartialEq, Eq)]
pub struct Group {
    pub a: Point,
    pub b: Point,
    pub subject: i64,
    pub clip: i64,
    pub met: bool,
}

// One more, which makes an equal pair.
pub fn join(g: Group, v: Segment) -> Group
    requires subject_bound { nat_abs g.subject ≤ 4096 * 2147483648 }
    requires clip_bound { nat_abs g.clip ≤ 4096 * 2147483648 }
    ensures value { result ≡ with_one g v }
    ensures subject_bound_2 { (nat_abs result.subject ≤ nat_abs g.subject + 2147483648) × (nat_abs result.clip ≤ nat_abs g.clip + 2147483648) }
{
    Group {
        subject: totals::total(g.subject, v.subject),
        clip: totals::total(g.clip, v.clip),
        met: true,
        ..g
    }
}

// A total is outside ±(2^31 - 1): refusal 9.
#[tactic(auto, unfolding(crate::specs::Group::far_group))]
pub fn too_big(g: Group) -> bool
    ensures { result ≡ far_group g }
{
    far(g.subject) || far(g.clip)
}

#[tactic(auto, unfolding(crate::specs::Group::is_far))]
fn far(z: i64) -> bool
    ensures { result ≡ is_far z }
{
    !(-2147483647..=2147483647).contains(&z)
}

// What the group leaves becomes row number w. The number of rows written then.
#[tactic(auto, unfolding(crate::specs::Group::left, whole::specs::Kind::flat, whole::specs::Kind::put_row))]
pub fn close(work: &mut [i32], w: usize, g: Group) -> usize
    requires w_in_bounds { 6 * w + 6 ≤ length work.old }
    requires sfits { SFits w32 g.subject }
    requires sfits_2 { SFits w32 g.clip }
    ensures value { result ≡ w + length (left g) }
    ensures work_after { work.new ≡ sets work.old (6 * w) (flat segments (left g)) }
{
    if dropped(g) {
        return w;
    }
    places::write(work, w, segment_of(g));
    w + 1
}

#[tactic(auto, unfolding(crate::specs::Group::is_dropped, crate::specs::Group::is_empty))]
fn dropped(g: Group) -> bool
    ensures { result ≡ is_dropped g }
{
    g.met && g.subject == 0 && g.clip == 0
}

fn segment_of(g: Group) -> Segment
    requires sfits { SFits w32 g.subject }
    requires sfits_2 { SFits w32 g.clip }
    ensures { result ≡ joint g }
{
    Segment {
        a: g.a,
        b: g.b,
        // `as`: the requires says that both totals fit.
        subject: Count(g.subject as i32),
        clip: Count(g.clip as i32),
    }
}
