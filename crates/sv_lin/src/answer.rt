use sqlite_items::Items;
use sv_cert::{Entry, Excess};
use sv_term::TermId;

/// What elimination comes to. Columns are given as terms of the same number.
#[derive(Drop)]
pub enum Eliminated {
    Contradiction(Items<Entry>),
    /// Each column of the given rows with a numerator and a positive denominator.
    Point(Items<Entry>, Items<(TermId, i128, i128)>),
    /// Of the causes `Rows` or `Value`.
    Excess(Items<Entry>, Excess),
    Spent(Items<Entry>),
}
