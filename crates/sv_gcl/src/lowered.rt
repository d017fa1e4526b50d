use crate::command::Cmd;
use sqlite_items::Items;
use sv_core::Label;
use sv_term::{Bank, SortId};
use sv_text::Name;

/// A variable of a command. It has a name where it stands for a state variable, an immutable or a named local.
#[derive(Clone, Copy, Drop)]
pub struct GVar {
    pub name: Option<Name>,
    pub sort: SortId,
}

/// A command with its variables, the labels of its function in order, and the bank of its terms.
#[derive(Drop)]
pub struct Lowered {
    pub bank: Bank,
    pub vars: Items<GVar>,
    pub cmd: Cmd,
    pub labels: Items<Label>,
}
