use crate::excess::Excess;
use crate::log::Log;
use sqlite_items::Items;

/// A number for each term of a condition's closure, in their order; 0 stands for `false` and 1 for `true`.
#[derive(Drop)]
pub struct Valuation {
    pub values: Items<i128>,
}

/// What the search for the proof of a condition came to.
#[derive(Drop)]
pub enum Found {
    /// A log that is accepted and closed.
    Proved(Log),
    /// A valuation under which the condition is false, and all its instances are true.
    Counter(Valuation),
    /// The log so far, where the limit is spent.
    StepLimit(Log),
    /// The log so far, where a number is too large.
    Coefficient(Log, Excess),
}
