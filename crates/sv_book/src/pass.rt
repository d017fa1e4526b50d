//! What a pass keeps of the nodes that it left.

ghost use Rattle.std.specs.Prelude.{◌≡◌, ◌&&◌, not, Bool};
ghost use Rattle.sv_book.specs.Visits.{kept, noted};

/// Faults of which one counts before the other.
pub trait Ranked: Copy {
    /// Whether the first counts before the second.
    ghost first: { Self → Self → Bool };

    /// Whether it counts before the other.
    fn counts_before(self, other: Self) -> bool
        ensures { result ≡ first self other };
}

/// Whether no rule was broken since the node around was entered, and the fault that counts so far.
#[derive(Clone, Copy, Debug, PartialEq, Eq)]
pub struct Pass<F> {
    pub clear: bool,
    pub least: Option<F>,
}

impl<F: Ranked> Pass<F> {
    /// Notes what a rule says of a node, whose parts are clear or not.
    pub fn ask(&mut self, parts: bool, broken: bool, fault: F)
        ensures clear { self.new.clear ≡ (self.old.clear && not broken) }
        ensures least { self.new.least ≡ kept F.first parts broken fault self.old.least }
    {
        if broken {
            self.clear = false;
            if parts {
                self.note(fault);
            }
        }
    }

    /// Notes a fault that counts.
    fn note(&mut self, fault: F)
        ensures clear { self.new.clear ≡ self.old.clear }
        ensures least { self.new.least ≡ noted F.first self.old.least fault }
    {
        match self.least {
            Some(found) if found.counts_before(fault) => {}
            _ => self.least = Some(fault),
        }
    }
}
