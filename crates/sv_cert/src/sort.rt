use sqlite_items::{Boxed, Items};
use sv_term::Range;

/// A sort as a line of a log writes it, as `[u8]`.
#[derive(Drop)]
pub enum LogSort {
    /// Whole numbers: `n`, `l`, `u8`, `i8`. A range of any number of bits may stand here; the checker refuses those that no sort has.
    Num(Range),
    /// `b`.
    Bool,
    /// An array, `[s]`.
    Arr(Boxed<LogSort>),
    /// A tuple, `(s,s)`.
    Tup(Items<LogSort>),
}
