use sqlite_items::Items;
use sv_core::Label;
use sv_gcl::GVar;
use sv_term::{Bank, TermId};

/// What is to be shown for a label: a truth value of the bank.
#[derive(Clone, Copy, Drop)]
pub struct Condition {
    pub label: Label,
    pub formula: TermId,
}

/// The conditions of a command, over the variables of a list.
#[derive(Drop)]
pub struct Conditions {
    pub bank: Bank,
    /// First those of the command, then its fresh versions: each has the name of the variable of which it is a version.
    pub vars: Items<GVar>,
    pub list: Items<Condition>,
}
