ghost use Rattle.std.specs.Prelude.{◌≡◌, ◌↔◌, IsTrue};

use std::fmt;

/// What the judge says of a function.
#[derive(Clone, Copy, Debug, PartialEq, Eq)]
pub enum Verdict {
    /// Every invariant holds at its end; the number is how many there are.
    Verified(usize),
    /// The invariant of this number, counted from 1, is the first that isn't proved at its end.
    Unproved(usize),
}

impl Verdict {
    ghost use Rattle.sv_first_judge.specs.Verdict.{is_verified};

    /// Whether every invariant is proved.
    pub fn is_verified(&self) -> bool
        ensures { result ≡ is_verified self.now }
    {
        matches!(self, Verdict::Verified(_))
    }
}

impl fmt::Display for Verdict {
    ghost use Rattle.std.specs.Prelude.{Some};
    ghost use Rattle.sv_first_judge.specs.Verdict.{verdict_text};

    ghost output = { λ v. Some (verdict_text v) };

    fn fmt<W: fmt::Write>(&self, f: &mut fmt::Formatter<W>) -> fmt::Result {
        match self {
            Verdict::Verified(count) => write!(f, "verified {count}"),
            Verdict::Unproved(number) => write!(f, "unproved invariant {number} at end"),
        }
    }
}
