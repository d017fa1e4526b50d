use crate::sort::LogSort;

/// An argument of a node.
#[derive(Drop)]
pub enum Part {
    /// The number of a term.
    Term(usize),
    Sort(LogSort),
    /// The number of a variable, the bits of a wrap, the place in a tuple, or the digits of a literal.
    Number(u128),
    Flag(bool),
}
