use crate::log::Log;
use sqlite_items::Items;
use sv_core::{FuncId, Label};
use sv_text::Name;

/// A log that is given for the condition of a label.
#[derive(Drop)]
pub struct Given {
    pub func: FuncId,
    pub label: Label,
    pub log: Log,
}

/// What the logs that are given for a function come to. A label is the first that isn't proved.
#[derive(Clone, Copy, Debug, PartialEq, Eq)]
pub enum Recheck {
    /// So many labels, all of the function, have accepted and closed logs.
    Verified(usize),
    /// No log is given for the label.
    Missing(Label),
    /// The log of the label is rejected at this entry, counted from 1.
    Rejected(Label, usize),
    /// The log of the label is accepted and not closed.
    Open(Label),
}

/// What the logs that are given for a contract come to, by function.
#[derive(Drop)]
pub struct Rechecks {
    pub name: Name,
    pub lines: Items<(FuncId, Recheck)>,
}
