use sv_cert::Row;

/// How a row was made.
#[derive(Clone, Copy, Debug)]
pub enum Origin {
    /// From two rows by their numbers, each with its multiplier.
    Combined(i128, usize, i128, usize),
    /// From a row by its number, with the divisor.
    Divided(i128, usize),
}

/// A row that elimination made.
#[derive(Drop)]
pub struct Made {
    pub origin: Origin,
    pub row: Row,
}

/// Whether elimination may go on, or why it ends.
#[derive(Clone, Copy, Debug)]
pub enum Outcome {
    On,
    Contradiction,
    Spent,
    /// The numbers of two rows whose combination is too large.
    Exceeds(usize, usize),
}
