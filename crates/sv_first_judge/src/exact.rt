ghost use Rattle.std.specs.Prelude.{◌≡◌, ◌↔◌, ◌+◌, ◌<◌, ◌+ℤ◌, neg_ℤ, pos, IsTrue};
ghost use Rattle.std.specs.Int.RustNames.{unsigned_abs};
ghost use Rattle.sv_first_judge.specs.Weights.{weight_limit};

use sv_num::{add, mul};

/// The sum, which the caller knows to be in range.
pub fn exact_sum(a: i128, b: i128) -> i128
    requires { unsigned_abs a + unsigned_abs b < weight_limit }
    ensures { result ≡ a +ℤ b }
{
    add(a, b).unwrap()
}

/// The number with the other sign.
pub fn negated(number: i128) -> i128
    requires { unsigned_abs number < weight_limit }
    ensures { result ≡ neg_ℤ number }
{
    mul(number, -1).unwrap()
}

/// Whether the sum of the numbers is 0.
pub fn cancels(a: i128, b: i128) -> bool
    ensures { IsTrue result ↔ (a +ℤ b ≡ pos 0) }
{
    add(a, b) == Some(0)
}
