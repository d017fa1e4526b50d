use sv_text::{Name, Place};

/// What a line of the report is about.
#[derive(Clone, Copy, Debug, PartialEq, Eq)]
pub enum FuncId {
    /// All constructors of the line.
    Constructor,
    /// A function, by its place among the contract's functions.
    Function(u32),
    /// Ether that arrives by force.
    Gift,
}

/// Where a check stands.
#[derive(Clone, Copy, Debug, PartialEq, Eq, PartialOrd, Ord)]
pub enum Site {
    /// At a call, an `assert` or a loop.
    At(Place),
    /// At the end of a function.
    End,
}

/// A check of a function.
#[derive(Clone, Copy, Debug, PartialEq, Eq, PartialOrd, Ord)]
pub struct Label {
    pub site: Site,
    /// 1 to 8, in the order of the table of checks.
    pub kind: u8,
    /// Which invariant, precondition or postcondition, counted from 1; 0 for an `assert`.
    pub number: u32,
    /// The name of the function that is called for kinds 1 and 2, and of the contract otherwise.
    pub of: Name,
}
