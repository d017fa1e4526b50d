/// Why an entry is rejected: the first cause that applies, of which `After` is tried before all others, and the others in this order.
#[derive(Clone, Copy, Debug, PartialEq, Eq)]
pub enum Why {
    /// A term number isn't there.
    NoTerm,
    /// An item number isn't in force.
    NoItem,
    /// A node doesn't fit.
    Sort,
    /// The term, fact or row is there.
    Repeat,
    /// A fact isn't by its rule.
    Rule,
    /// A row isn't as stated.
    Row,
    /// A split, a cut or a closing isn't as stated.
    Branch,
    /// The branch or the log is closed, and the entry isn't a cut that is allowed.
    After,
}
