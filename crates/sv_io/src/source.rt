ghost use Rattle.std.specs.Prelude.{◌≡◌, ◌≢◌, ℕ, ◌<◌, ◌≤◌, List, length, Option};
ghost use Rattle.sv_io.specs.Calls.{Taking, TellsTake};
ghost use Rattle.sv_io.specs.Moves.{IsAmountTaken, TakesFront, Rose, count_after, count_end};

/// What a call of `take` gave.
#[derive(Clone, Copy, Debug, PartialEq, Eq)]
pub enum Taken {
    /// That many bytes, at the front of the buffer.
    Got(usize),
    /// Nothing is left.
    End,
    /// The source failed.
    Failed,
}

/// Where bytes come from.
pub trait Source {
    /// The bytes that are not taken yet, where the source tells them.
    ghost left: { Self → Option (List ℕ) };

    /// How often the source has failed.
    ghost faults: { Self → ℕ };

    /// How often `take` was called.
    ghost takes: { Self → ℕ };

    /// Its calls so far, where the source tells them.
    ghost calls: { Self → Option (List Taking) };

    /// It never fails from now on.
    ghost is_sure: { Self → Type 0 };

    /// Takes bytes from the front of what is left. Counts stay at their greatest value, 2^64 - 1.
    fn take(&mut self, into: &mut [u8]) -> Taken
        requires { 0 < length into.old }
        ensures amount { IsAmountTaken result (length into.old) }
        ensures bytes { TakesFront (left self.old) (left self.new) result into.new }

        ensures faults { faults self.old ≤ faults self.new }
        ensures faults_end { count_end ≤ faults self.old → faults self.new ≡ faults self.old }
        ensures cause { result ≡ Taken.Failed → Rose (faults self.old) (faults self.new) }
        ensures sure { is_sure self.old → (result ≢ Taken.Failed) × is_sure self.new }

        ensures takes { takes self.old ≤ takes self.new }
        ensures counted { takes self.new ≡ count_after (takes self.old) }
        ensures told { TellsTake (calls self.old) (calls self.new) result (length into.old) };
}
