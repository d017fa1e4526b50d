ghost use Rattle.std.specs.Prelude.{◌≡◌, true, map};
ghost use Rattle.sv_log.specs.LogEntries.{suits};
ghost use Rattle.sv_cert.specs.LogText.{are_short};
ghost use Rattle.sv_cert.specs.PlainNodes.{plain_kind, plain_part};

use crate::kind::NodeKind;
use crate::part::Part;
use sqlite_items::Items;

/// A node whose arguments are the numbers of terms. They are in the number and of the kinds that the node takes, and a sort among them
/// has a text of at most 10,000 bytes.
#[derive(Drop)]
pub struct LogNode {
    pub kind: NodeKind,
    pub parts: Items<Part>,
    pub ghost suited: { suits (plain_kind kind) (map plain_part parts) ≡ true },
    pub ghost short: { are_short (map plain_part parts) ≡ true },
}

/// A row says that its constant and its numbers, each times its column, are at most 0 together.
#[derive(Drop)]
pub struct Row {
    pub constant: i128,
    /// A number and its column, in the order of the line.
    pub parts: Items<(i128, usize)>,
}

/// A line of a log. Numbers stand in the order of the line; a flag is true for `+`.
#[derive(Drop)]
pub enum Entry {
    /// `t`: a new term.
    Term(LogNode),
    /// `f`: a fact by its rule, with its sign, its term, and the items that it comes from.
    Fact(u8, bool, usize, Items<usize>),
    /// `l`: the linear form of an item, one way round or the other.
    Linear(usize, bool, Row),
    /// `k`: two rows, each with its multiplier, and what they make.
    Combine(i128, usize, i128, usize, Row),
    /// `g`: a divisor, a row, and the quotient.
    Divide(i128, usize, Row),
    /// `s`: a split on a term.
    Split(usize),
    /// `x`: the second half of a split.
    Cut,
    /// `c` with an item that can't be true.
    Close(usize),
    /// `c` with two items of opposite sign.
    Clash(usize, usize),
}

/// The entries of a log.
#[derive(Drop)]
pub struct Log {
    pub entries: Items<Entry>,
}
