//! Exact arithmetic on `i128`: sums, products and combinations, or `None`; the greatest common divisor; rounded quotients.
//!
//! Promises: `add`, `mul` and `combine` give the value over the integers, and `None` exactly where a number on the way is no `i128`;
//! `gcd`, `floor_div` and `ceil_div` give the numbers of that name. No call takes memory.
//! Stands on: std alone.
//! Read first: `specs/Range.antt`, `specs/Rounding.antt`.
#![tactic(auto)]

ghost use Rattle.std.specs.Prelude.{◌≡◌, ◌↔◌, ◌+ℤ◌, ◌*ℤ◌, ◌<ℤ◌, pos, IfSome, IsSome};
ghost use Rattle.std.specs.Int.{IsGcd};
ghost use Rattle.sv_num.specs.Range.{IsI128};
ghost use Rattle.sv_num.specs.Rounding.{IsCeiling, IsFloor};

/// The sum, or `None` where it is out of range.
pub fn add(a: i128, b: i128) -> Option<i128>
    ensures value { IfSome result (λ v. v ≡ a +ℤ b) }
    ensures exact { IsSome result ↔ IsI128 (a +ℤ b) }
{
    a.checked_add(b)
}

/// The product, or `None` where it is out of range.
pub fn mul(a: i128, b: i128) -> Option<i128>
    ensures value { IfSome result (λ v. v ≡ a *ℤ b) }
    ensures exact { IsSome result ↔ IsI128 (a *ℤ b) }
{
    a.checked_mul(b)
}

/// The linear combination `a * x + b * y`, or `None` where a product or the sum is out of range, also where the sum of products
/// that are out of range would come back into it.
pub fn combine(a: i128, x: i128, b: i128, y: i128) -> Option<i128>
    ensures value { IfSome result (λ v. v ≡ a *ℤ x +ℤ b *ℤ y) }
    ensures exact { IsSome result ↔ IsI128 (a *ℤ x) × IsI128 (b *ℤ y) × IsI128 (a *ℤ x +ℤ b *ℤ y) }
{
    add(mul(a, x)?, mul(b, y)?)
}

/// The greatest common divisor, by Euclid's algorithm; that of 0 and 0 is 0.
pub fn gcd(a: u128, b: u128) -> u128
    ensures { IsGcd a b result }
{
    let mut x = a;
    let mut y = b;
    while y != 0 {
        let rest = x % y;
        x = y;
        y = rest;
    }
    x
}

/// The quotient rounded toward negative infinity.
pub fn floor_div(a: i128, b: i128) -> i128
    requires { pos 0 <ℤ b }
    ensures { IsFloor a b result }
{
    a.div_euclid(b)
}

/// The quotient rounded toward positive infinity.
pub fn ceil_div(a: i128, b: i128) -> i128
    requires { pos 0 <ℤ b }
    ensures { IsCeiling a b result }
{
    let floor = a.div_euclid(b);
    if a.rem_euclid(b) == 0 {
        floor
    } else {
        floor + 1
    }
}

#[cfg(test)]
mod tests {
    use super::*;

    const MIN: i128 = i128::MIN;

    const MAX: i128 = i128::MAX;

    // The integer part of the square root of MAX.
    const ROOT: i128 = 13043817825332782212;

    #[test]
    fn sums_at_the_borders(rt: HostRuntime) {
        for (a, b, want) in [
            (2, 3, Some(5)),
            (MAX, 0, Some(MAX)),
            (MAX, 1, None),
            (MAX - 1, 1, Some(MAX)),
            (MIN, -1, None),
            (MIN + 1, -1, Some(MIN)),
            (MIN, MAX, Some(-1)),
            (MIN, MIN, None),
        ] {
            assert_eq!(rt; add(a, b), want, "{a} + {b}");
            assert_eq!(rt; add(b, a), want, "{b} + {a}");
        }
    }

    #[test]
    fn products_at_the_borders(rt: HostRuntime) {
        for (a, b, want) in [
            (-2, 3, Some(-6)),
            (MAX, 0, Some(0)),
            (MAX, 1, Some(MAX)),
            (MAX, -1, Some(MIN + 1)),
            (MIN, 1, Some(MIN)),
            (MIN, -1, None),
            (MAX, 2, None),
            (MIN, MIN, None),
            (ROOT, ROOT, Some(170141183460469231722567801800623612944)),
            (ROOT + 1, ROOT + 1, None),
            (1 << 63, -(1 << 64), Some(MIN)),
            (1 << 63, 1 << 64, None),
        ] {
            assert_eq!(rt; mul(a, b), want, "{a} * {b}");
            assert_eq!(rt; mul(b, a), want, "{b} * {a}");
        }
    }

    #[test]
    fn combinations_at_the_borders(rt: HostRuntime) {
        for (a, x, b, y, want) in [
            (2, 3, 5, -7, Some(-29)),
            (MAX, 1, -1, MAX, Some(0)),
            (MAX, 2, -1, MAX, None),
            (1, MIN, 1, MAX, Some(-1)),
            (1, MAX, 1, 1, None),
            (0, MIN, MIN, -1, None),
        ] {
            assert_eq!(rt; combine(a, x, b, y), want, "{a} * {x} + {b} * {y}");
        }
    }

    #[test]
    fn divisors(rt: HostRuntime) {
        for (a, b, want) in [
            (0, 0, 0),
            (0, 7, 7),
            (12, 18, 6),
            (35, 64, 1),
            (1 << 127, 1 << 100, 1 << 100),
            (u128::MAX, 17, 17),
        ] {
            assert_eq!(rt; gcd(a, b), want, "of {a} and {b}");
            assert_eq!(rt; gcd(b, a), want, "of {b} and {a}");
        }
    }

    #[test]
    fn quotients_of_both_signs(rt: HostRuntime) {
        for (a, b, floor, ceiling) in [
            (7, 2, 3, 4),
            (-7, 2, -4, -3),
            (-3, 2, -2, -1),
            (6, 3, 2, 2),
            (-6, 3, -2, -2),
            (0, 5, 0, 0),
            (-1, MAX, -1, 0),
            (MIN, 1, MIN, MIN),
            (MAX, 1, MAX, MAX),
            (MIN, MAX, -2, -1),
        ] {
            assert_eq!(rt; floor_div(a, b), floor, "{a} / {b} rounded down");
            assert_eq!(rt; ceil_div(a, b), ceiling, "{a} / {b} rounded up");
        }
    }
}
