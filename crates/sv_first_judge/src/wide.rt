use std::marker::Model;

/// A whole number below 2^256.
#[derive(Clone, Copy, Debug, PartialEq, Eq)]
pub struct Wide {
    high: u128,
    low: u128,
}

impl Model for Wide {
    ghost use Rattle.std.specs.Prelude.{ℕ, ◌+◌, ◌*◌, ◌/◌, ◌%◌, ◌^◌, ◌<◌};
    ghost use Rattle.std.proofs.lemmas.Nat.{div-mul-add, mod-mul-add};

    ghost Value = { ℕ };

    ghost view = { λ w. w.high * 2 ^ 128 + w.low };

    ghost invariant = { λ w. w.low < 2 ^ 128 };

    ghost inverse = { λ n. record { high = n / 2 ^ 128; low = n % 2 ^ 128 } };

    ghost inverse_ok = { λ w low. λ i. record {
      high = div-mul-add w.high (2 ^ 128) w.low low i;
      low = mod-mul-add w.high (2 ^ 128) w.low low i;
    } };
}

impl Wide {
    ghost use Rattle.std.specs.Prelude.{◌≡◌, ◌+◌, ◌*◌, ◌^◌, ◌<◌, SomeIff};

    /// The number of these two halves.
    pub fn new(high: u128, low: u128) -> Wide
        ensures { result ≡ high * 2 ^ 128 + low }
    {
        Wide { high, low }
    }

    /// A number of at most 64 bits.
    pub fn from_u64(number: u64) -> Wide
        ensures { result ≡ number }
    {
        Wide::new(0, u128::from(number))
    }

    /// The sum, or none where it is 2^256 or more.
    pub fn checked_add(self, other: Wide) -> Option<Wide>
        ensures { SomeIff result (self + other < 2 ^ 256) (self + other) }
    {
        let (low, carry) = self.low.overflowing_add(other.low);
        let high = self.high.checked_add(other.high)?;
        let high = high.checked_add(u128::from(carry))?;
        Some(Wide { high, low })
    }
}
