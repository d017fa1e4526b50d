use sv_rule::Rule;
use sv_text::Place;

/// Why a tree has no list of contracts.
#[derive(Clone, Copy, Debug, PartialEq, Eq)]
pub enum RuleFault {
    /// The rule that is broken, and the place of the node that breaks it.
    Broken(Rule, Place),
    NoMemory,
}

/// Why a text is refused, in the order in which causes count.
#[derive(Clone, Copy, Debug, PartialEq, Eq)]
pub enum Refusal {
    /// The text is over the limit of bytes.
    Long,
    /// A byte that can't stand there.
    Char(Place),
    /// A comment, string or pragma that doesn't end.
    Unclosed(Place),
    /// The text is over the limit of tokens.
    Many(Place),
    /// A word or operator that this language leaves out.
    Out(Place),
    /// Too many open brackets, or tokens in a row.
    Deep(Place),
    /// The tokens have no tree.
    Syntax(Place),
    /// A rule is broken.
    Rule(Rule, Place),
    NoMemory,
}
