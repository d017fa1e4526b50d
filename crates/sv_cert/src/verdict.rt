use crate::excess::Excess;
use crate::found::Valuation;
use crate::log::Log;
use sqlite_items::Items;
use sv_core::{FuncId, Label};
use sv_text::Name;

/// A variable of a condition that has a name, with its value.
#[derive(Clone, Copy, Debug, PartialEq, Eq)]
pub struct Shown {
    pub name: Name,
    /// The variable's number.
    pub number: usize,
    /// Whether the value is a truth value; then 1 stands for `true`.
    pub truth: bool,
    pub value: i128,
}

/// What is said of a function. The first list has the closed logs of all labels before the one that is named, and where all are proved those of all.
#[derive(Drop)]
pub enum Verdict {
    /// Every label has a closed log.
    Verified(Items<Log>),
    /// The condition of this label has a counterexample, with its variables in the order of their numbers.
    Unproved(Items<Log>, Label, Valuation, Items<Shown>),
    /// The limit is spent at this label, with the log so far.
    StepLimit(Items<Log>, Label, Log),
    /// A number is too large at this label, with the log so far.
    Coefficient(Items<Log>, Label, Log, Excess),
}

/// The verdicts of a contract, by function.
#[derive(Drop)]
pub struct Verdicts {
    pub name: Name,
    pub lines: Items<(FuncId, Verdict)>,
}
