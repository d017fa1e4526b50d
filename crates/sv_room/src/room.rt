ghost use Rattle.std.specs.Prelude.{◌≡◌};
ghost use Rattle.sv_room.specs.Rooms.{none, both, capped_room};

/// For how much there is room, or how much is taken.
#[derive(Clone, Copy, Drop)]
pub struct Room {
    pub terms: usize,
    /// The arguments of all terms together.
    pub args: usize,
    /// Sorts, those within others included.
    pub sorts: usize,
    /// Facts and rows in force.
    pub items: usize,
    /// The numbers of all rows in force together, but for the constants.
    pub coefficients: usize,
    /// Splits that are open at once.
    pub splits: usize,
}

impl Room {
    /// Nothing.
    pub fn none() -> Room
        ensures { result ≡ none }
    {
        Room {
            terms: 0,
            args: 0,
            sorts: 0,
            items: 0,
            coefficients: 0,
            splits: 0,
        }
    }

    /// Both together; a number that would pass the greatest `usize` is that one.
    pub fn and(self, more: Room) -> Room
        ensures { result ≡ capped_room (both self more) }
    {
        Room {
            terms: self.terms.saturating_add(more.terms),
            args: self.args.saturating_add(more.args),
            sorts: self.sorts.saturating_add(more.sorts),
            items: self.items.saturating_add(more.items),
            coefficients: self.coefficients.saturating_add(more.coefficients),
            splits: self.splits.saturating_add(more.splits),
        }
    }
}
