use sqlite_items::Items;
use sv_term::TermId;

/// What is too large for an `i128`. A point gives columns with numerators and positive denominators.
#[derive(Drop)]
pub enum Excess {
    /// A literal.
    Literal(TermId),
    /// A number of the linear form of a term.
    Form(TermId),
    /// A number of the combination of two items.
    Rows(u32, u32),
    /// A number on the way to the bound of an item, at a point.
    Value(u32, Items<(TermId, i128, i128)>),
    /// A number on the way to the value of a term, at a point.
    Term(TermId, Items<(TermId, i128, i128)>),
}
