#![tactic(auto)]
// The front of a lent list copied from another.
ghost use Rattle.std.specs.Prelude.{cond, ◌≡◌};
ghost use Rattle.copies.specs.Copied.{both_hold, copied};

// The first n numbers of `to` become those of `from`. False, and nothing changed, where either has fewer.
#[tactic(auto, unfolding(crate::specs::Copied::copied))]
pub fn copy(from: &[i32], to: &mut [i32], n: usize) -> bool
    ensures value { result ≡ both_hold n from.now to.old }
    ensures to_after { to.new ≡ cond result (copied n from.now to.old) to.old }
{
    if from.len() < n || to.len() < n {
        return false;
    }
    to[..n].copy_from_slice(&from[..n]);
    true
}
