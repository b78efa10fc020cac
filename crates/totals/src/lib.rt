#![tactic(auto)]
// Sums in 64 bits: a count more, and whether a number is 0.
ghost use Rattle.std.specs.Prelude.{◌≡◌, ◌+◌, ◌*◌, ◌≤◌, nat_abs, pos, ◌+ℤ◌};
ghost use Rattle.geom.specs.Plane.{sameZ};

use geom::Count;

// One count more: 4,096 of them and more stay within 64 bits.
pub fn total(sum: i64, c: Count) -> i64
    requires { nat_abs sum ≤ 4096 * 2147483648 }
    ensures value { result ≡ sum +ℤ c.0 }
    ensures result_bound { nat_abs result ≤ nat_abs sum + 2147483648 }
{
    sum + i64::from(c.0)
}

// A public function that keeps its promise; our own code writes `z == 0`.
pub fn zero(z: i64) -> bool
    ensures { result ≡ sameZ z (pos 0) }
{
    z == 0
}
