use sqlite_items::Items;
use sv_core::Label;
use sv_term::TermId;

/// A guarded command, over the terms of a bank.
#[derive(Drop)]
pub enum Cmd {
    /// The run ends, without a failure, where the term is false.
    Assume(TermId),
    /// The run fails at the label where the term is false.
    Check(Label, TermId),
    /// The variable has the value of the term from then on.
    Set(usize, TermId),
    /// The variable has any value of its sort from then on.
    Forget(usize),
    /// All of them, one after another.
    Seq(Items<Cmd>),
    /// Any one of them.
    Choice(Items<Cmd>),
}
