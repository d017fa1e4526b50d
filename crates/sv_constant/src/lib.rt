//! Exact arithmetic on signed magnitudes: what literal expressions and constants are worth, step by step.
//!
//! Promises: each answer is exact over the integers, and none exactly where its magnitude is 2^128 or more. No call takes memory.
//! Stands on: std alone.
//! Read first: `specs/SignedMagnitudes.antt`.
#![tactic(auto)]

ghost use Rattle.std.specs.Prelude.{◌≡◌, ◌↔◌, ◌+ℤ◌, ◌-ℤ◌, ◌*ℤ◌, neg_ℤ, IfSome, IsSome};
ghost use Rattle.sv_constant.specs.SignedMagnitudes.{integer, signed, IsProper, Fits};

/// An integer as a sign and a magnitude.
#[derive(Clone, Copy, Debug, PartialEq, Eq)]
pub struct Worth {
    /// Never true of 0.
    pub negative: bool,
    pub magnitude: u128,
}

impl Worth {
    /// The integer of a sign and a magnitude; a 0 with a minus is 0.
    pub fn new(negative: bool, magnitude: u128) -> Worth
        ensures value { integer result ≡ signed negative magnitude }
        ensures proper { IsProper result }
    {
        Worth {
            negative: negative && magnitude != 0,
            magnitude,
        }
    }

    /// The integer with the other sign.
    pub fn minus(self) -> Worth
        ensures value { integer result ≡ neg_ℤ (integer self) }
        ensures proper { IsProper result }
    {
        Worth::new(!self.negative, self.magnitude)
    }

    /// The sum, or none from a magnitude of 2^128 on.
    pub fn plus(self, other: Worth) -> Option<Worth>
        ensures value { IfSome result (λ w. integer w ≡ integer self +ℤ integer other) }
        ensures proper { IfSome result (λ w. IsProper w) }
        ensures exact { IsSome result ↔ Fits (integer self +ℤ integer other) }
    {
        if self.negative == other.negative {
            let Some(magnitude) = self.magnitude.checked_add(other.magnitude) else {
                return None;
            };
            Some(Worth::new(self.negative, magnitude))
        } else if other.magnitude <= self.magnitude {
            Some(Worth::new(self.negative, self.magnitude - other.magnitude))
        } else {
            Some(Worth::new(other.negative, other.magnitude - self.magnitude))
        }
    }

    /// The difference, or none from a magnitude of 2^128 on.
    pub fn less(self, other: Worth) -> Option<Worth>
        ensures value { IfSome result (λ w. integer w ≡ integer self -ℤ integer other) }
        ensures proper { IfSome result (λ w. IsProper w) }
        ensures exact { IsSome result ↔ Fits (integer self -ℤ integer other) }
    {
        self.plus(other.minus())
    }

    /// The product, or none from a magnitude of 2^128 on.
    pub fn times(self, other: Worth) -> Option<Worth>
        ensures value { IfSome result (λ w. integer w ≡ integer self *ℤ integer other) }
        ensures proper { IfSome result (λ w. IsProper w) }
        ensures exact { IsSome result ↔ Fits (integer self *ℤ integer other) }
    {
        let Some(magnitude) = self.magnitude.checked_mul(other.magnitude) else {
            return None;
        };
        Some(Worth::new(self.negative != other.negative, magnitude))
    }
}
