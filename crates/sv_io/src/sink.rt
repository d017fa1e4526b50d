ghost use Rattle.std.specs.Prelude.{◌≡◌, ◌≢◌, ℕ, ◌<◌, ◌≤◌, List, length, Option};
ghost use Rattle.sv_io.specs.Calls.{Putting, TellsPut};
ghost use Rattle.sv_io.specs.Moves.{IsAmountPut, Appends, UsesRoom, Rose, count_after, count_end};

/// What a call of `put` did.
#[derive(Clone, Copy, Debug, PartialEq, Eq)]
pub enum Put {
    /// It took that many bytes from the front of the piece.
    Took(usize),
    /// The sink failed.
    Failed,
}

/// Where bytes go.
pub trait Sink {
    /// The bytes that it holds, where the sink tells them.
    ghost held: { Self → Option (List ℕ) };

    /// How often the sink has failed.
    ghost faults: { Self → ℕ };

    /// How often `put` was called.
    ghost puts: { Self → ℕ };

    /// Its calls so far, where the sink tells them.
    ghost calls: { Self → Option (List Putting) };

    /// How many bytes it surely takes yet.
    ghost room: { Self → ℕ };

    /// Appends bytes from the front of the piece. Counts stay at their greatest value, 2^64 - 1.
    fn put(&mut self, piece: &[u8]) -> Put
        requires { 0 < length piece.now }
        ensures amount { IsAmountPut result (length piece.now) }
        ensures bytes { Appends (held self.old) (held self.new) result piece.now }
        ensures room { UsesRoom (room self.old) (room self.new) result }

        ensures faults { faults self.old ≤ faults self.new }
        ensures faults_end { count_end ≤ faults self.old → faults self.new ≡ faults self.old }
        ensures cause { result ≡ Put.Failed → Rose (faults self.old) (faults self.new) }

        ensures puts { puts self.old ≤ puts self.new }
        ensures counted { puts self.new ≡ count_after (puts self.old) }
        ensures told { TellsPut (calls self.old) (calls self.new) result piece.now };
}
