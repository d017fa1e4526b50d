use crate::sort::LogSort;
use sqlite_items::Items;

/// A bracket of a sort that is still open.
#[derive(Drop)]
pub enum Bracket {
    /// `[`.
    Array,
    /// `(`, and the sorts before the last comma.
    Tuple(Items<LogSort>),
}

/// What is read of a sort behind the innermost open bracket.
#[derive(Drop)]
pub enum Reading {
    /// A sort is to begin.
    Wanted,
    /// A tuple has begun, and may end at once.
    Begun,
    /// The letter of a range, signed or not, and these digits.
    Digits(bool, Items<u8>),
    /// A sort.
    Done(LogSort),
}
