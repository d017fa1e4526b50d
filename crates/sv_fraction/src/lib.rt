//! Fractions of `i128` in lowest terms: their order, sums that are worked out step by step, and the bound of a column.
//!
//! Promises: the order is that of the fractions, and comparing makes no product; a sum and a bound are exact, and `None` exactly where
//! a number on the way is no `i128`. No call takes memory.
//! Stands on: `sv_num`.
//! Read first: `specs/Fractions.antt`.
#![tactic(auto)]

ghost use Rattle.std.specs.Prelude.{◌≡◌, ◌↔◌, ◌<◌, ◌*◌, pos, ◌<ℤ◌, IfSome, IsSome, MatchOption, neg_ℤ};
ghost use Rattle.std.specs.Ordering.{MatchOrdering};
ghost use Rattle.sv_num.specs.Range.{IsI128};
ghost use Rattle.sv_fraction.specs.Fractions.{ratio, IsReduced, IsSame, IsLess, FitsSum, IsSum, IsBound, ExceedsBound};

use std::cmp::Ordering;
use std::marker::Model;
use sv_num::{combine, gcd, mul};

/// A numerator over a positive denominator, in lowest terms.
#[derive(Clone, Copy, Debug)]
pub struct Fraction {
    top: i128,
    under: i128,
}

impl Model for Fraction {
    ghost use Rattle.sv_fraction.specs.Fractions.{Ratio, IsReduced, ratio};

    ghost Value = { Ratio };

    ghost view = { λ f. ratio f.top f.under };

    ghost invariant = { λ f. IsReduced (ratio f.top f.under) };

    ghost inverse = { λ r. record { top = r.top; under = r.under } };
}

impl Fraction {
    /// 0, as 0/1.
    pub fn zero() -> Fraction
        ensures { result ≡ ratio (pos 0) (pos 1) }
    {
        Fraction { top: 0, under: 1 }
    }

    /// The whole number, over 1.
    pub fn whole(number: i128) -> Fraction
        ensures { result ≡ ratio number (pos 1) }
    {
        Fraction {
            top: number,
            under: 1,
        }
    }

    /// The fraction in lowest terms.
    pub fn reduced(top: i128, under: i128) -> Fraction
        requires { pos 0 <ℤ under }
        ensures same { IsSame result (ratio top under) }
        ensures lowest { IsReduced result }
    {
        let divisor = gcd(top.unsigned_abs(), under.unsigned_abs()) as i128;
        Fraction {
            top: top.div_euclid(divisor),
            under: under.div_euclid(divisor),
        }
    }

    pub fn top(&self) -> i128
        ensures { result ≡ self.now.top }
    {
        self.top
    }

    pub fn under(&self) -> i128
        ensures value { result ≡ self.now.under }
        ensures lowest { IsReduced self.now }
    {
        self.under
    }

    /// How this fraction stands to the other: by the quotients rounded down, and where these are equal by what is left over.
    pub fn compare(&self, other: &Fraction) -> Ordering
        ensures { MatchOrdering result (IsLess self.now other.now) (IsSame self.now other.now) (IsLess other.now self.now) }
    {
        let own = self.top.div_euclid(self.under);
        let others = other.top.div_euclid(other.under);
        if own < others {
            return Ordering::Less;
        }
        if others < own {
            return Ordering::Greater;
        }
        let own_rest = self.top.rem_euclid(self.under) as u128;
        let others_rest = other.top.rem_euclid(other.under) as u128;
        compare_rests(
            own_rest,
            self.under as u128,
            others_rest,
            other.under as u128,
        )
    }

    /// This fraction and `factor` times `value`, in lowest terms; `None` where a number on the way is no `i128`, before lowest terms.
    pub fn plus(self, factor: i128, value: Fraction) -> Option<Fraction>
        ensures sum { IfSome result (λ g. IsSum self factor value g) }
        ensures exact { IsSome result ↔ FitsSum self factor value }
    {
        let share = mul(factor, value.top)?;
        let top = combine(self.top, value.under, share, self.under)?;
        let under = mul(self.under, value.under)?;
        Some(Fraction::reduced(top, under))
    }

    /// The value of a column at which its `factor` times it and this fraction are 0 together; `None` where a number on the way is no `i128`.
    pub fn bound(self, factor: i128) -> Option<Fraction>
        requires { factor ≡ pos 0 → ⊥ }
        ensures { MatchOption result (ExceedsBound self factor) (IsBound self factor) }
    {
        let size = factor.checked_abs()?;
        let under = mul(self.under, size)?;
        let lower = Fraction::reduced(self.top, under);
        if factor < 0 {
            Some(lower)
        } else {
            lower.negated()
        }
    }

    fn negated(self) -> Option<Fraction>
        ensures { MatchOption result (IsI128 (neg_ℤ self.top) → ⊥)
            (λ g. IsReduced self × IsReduced g × (g ≡ ratio (neg_ℤ self.top) self.under)) }
    {
        let top = self.top.checked_neg()?;
        Some(Fraction {
            top,
            under: self.under,
        })
    }
}

// How a / b stands to c / d, by Euclid's algorithm: reciprocals of what is left over turn the order round.
fn compare_rests(a: u128, b: u128, c: u128, d: u128) -> Ordering
    requires first { 0 < b }
    requires second { 0 < d }
    ensures { MatchOrdering result (a * d < c * b) (a * d ≡ c * b) (c * b < a * d) }
{
    let own = a / b;
    let others = c / d;
    if own < others {
        return Ordering::Less;
    }
    if others < own {
        return Ordering::Greater;
    }
    let own_rest = a % b;
    let others_rest = c % d;
    if own_rest == 0 {
        if others_rest == 0 {
            Ordering::Equal
        } else {
            Ordering::Less
        }
    } else if others_rest == 0 {
        Ordering::Greater
    } else {
        compare_rests(d, others_rest, b, own_rest)
    }
}

#[cfg(test)]
mod tests {
    use super::*;

    const MIN: i128 = i128::MIN;

    const MAX: i128 = i128::MAX;

    fn fraction(top: i128, under: i128) -> Fraction {
        if under > 0 {
            Fraction::reduced(top, under)
        } else {
            Fraction::zero()
        }
    }

    fn numbers(fraction: Option<Fraction>) -> Option<(i128, i128)> {
        fraction.map(|f| (f.top(), f.under()))
    }

    #[test]
    fn orders(rt: HostRuntime) {
        for (a, b, c, d, want) in [
            (1, 2, 2, 4, Ordering::Equal),
            (-1, 2, 1, 3, Ordering::Less),
            (-1, 2, -1, 3, Ordering::Less),
            (7, 5, 4, 3, Ordering::Greater),
            (MAX, MAX - 1, MAX - 1, MAX - 2, Ordering::Less),
            (MIN, MAX, -1, 1, Ordering::Less),
        ] {
            assert_eq!(rt;
                fraction(a, b).compare(&fraction(c, d)),
                want,
                "{a}/{b} and {c}/{d}"
            );
        }
    }

    #[test]
    fn sums(rt: HostRuntime) {
        for (a, b, k, c, d, want) in [
            (1, 2, 1, 1, 2, Some((1, 1))),
            (1, 6, -3, 1, 2, Some((-4, 3))),
            (5, 1, 0, MAX, 1, Some((5, 1))),
            (MAX, 1, 1, 1, 1, None),
            (0, 1, 2, MIN, 1, None),
            (1, MAX, 1, 1, 2, None),
        ] {
            assert_eq!(rt;
                numbers(fraction(a, b).plus(k, fraction(c, d))),
                want,
                "{a}/{b} and {k} times {c}/{d}"
            );
        }
    }

    #[test]
    fn bounds(rt: HostRuntime) {
        for (a, b, k, want) in [
            (5, 1, 2, Some((-5, 2))),
            (5, 1, -2, Some((5, 2))),
            (-4, 3, 2, Some((2, 3))),
            (0, 1, -7, Some((0, 1))),
            (MIN, 1, -1, Some((MIN, 1))),
            (MIN, 1, 1, None),
            (1, 1, MIN, None),
            (1, MAX, 2, None),
        ] {
            if k != 0 {
                assert_eq!(rt; numbers(fraction(a, b).bound(k)), want, "{a}/{b} and {k}");
            }
        }
    }
}
