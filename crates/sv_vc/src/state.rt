use crate::answer::Condition;
use sqlite_items::Items;
use sv_gcl::GVar;
use sv_term::TermId;

/// The variables of a command, and beside each what a version of it is that joins the branches of a choice.
#[derive(Drop)]
pub struct Scope {
    pub given: Items<GVar>,
    pub joined: Items<GVar>,
}

/// What each variable of the command stands for, all variables so far, and the formulas of the checks so far.
#[derive(Drop)]
pub struct State {
    pub env: Items<TermId>,
    pub vars: Items<GVar>,
    pub found: Items<Condition>,
}
