//! The least multipliers with which two numbers of opposite sign cancel.
//!
//! Promises: `multipliers` gives them, or `None` only where one of them is no `i128`. No call takes memory.
//! Stands on: `sv_num`, and on `sv_log` for what they are.
//! Read first: `specs/Multipliers.antt`.
#![tactic(auto)]

ghost use Rattle.std.specs.Prelude.{◌≡◌, ◌<◌, ◌≤◌, ◌^◌, ◌*ℤ◌, ◌<ℤ◌, pos, MatchOption};
ghost use Rattle.sv_log.specs.LogRows.{Cancels};
ghost use Rattle.sv_row.specs.Multipliers.{ExceedMultipliers};

mod division;
mod sum;

pub use division::{divided, divisor};
pub use sum::combined;
use sv_num::gcd;

/// The least positive multipliers of `k` and of `l` with which the two cancel; `None` where one of them is 2^127, which is no `i128`.
pub fn multipliers(k: i128, l: i128) -> Option<(i128, i128)>
    requires { (k *ℤ l) <ℤ pos 0 }
    ensures { MatchOption result (ExceedMultipliers k l) (λ p. Cancels p.0 p.1 k l) }
{
    let own = k.unsigned_abs();
    let other = l.unsigned_abs();
    let divisor = gcd(own, other);
    let first = signed(other / divisor)?;
    let second = signed(own / divisor)?;
    Some((first, second))
}

fn signed(number: u128) -> Option<i128>
    ensures { MatchOption result (2 ^ 127 ≤ number) (λ z. z ≡ pos number) }
{
    if number < 1 << 127 {
        Some(number as i128)
    } else {
        None
    }
}

#[cfg(test)]
mod tests {
    use super::*;

    #[test]
    fn least(rt: HostRuntime) {
        for (k, l, want) in [
            (2, -2, Some((1, 1))),
            (6, -4, Some((2, 3))),
            (-6, 4, Some((2, 3))),
            (1, -7, Some((7, 1))),
            (i128::MIN, 2, Some((1, 1 << 126))),
            (i128::MIN, 1, None),
            (3, i128::MIN, None),
        ] {
            if (k < 0 && l > 0) || (k > 0 && l < 0) {
                assert_eq!(rt; multipliers(k, l), want, "of {k} and {l}");
            }
        }
    }
}
