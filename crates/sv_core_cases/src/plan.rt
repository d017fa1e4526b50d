/// A statement of a body that holds checks, with its place.
#[derive(Clone, Copy, Debug)]
pub enum Act {
    /// A call of a function of the contract.
    Call(u32, u32, u32),
    /// `a.transfer(v)`.
    Send(u32, u32),
    Assert(u32, u32),
    /// A loop with so many invariants, whose condition calls a function of the contract.
    Loop(u32, u32, usize),
    /// `_` of a modifier.
    Rest,
}

/// A function, by its name, the place of its contract in the line, and how many annotations it has.
#[derive(Clone, Copy, Debug)]
pub struct FuncPlan<'a> {
    pub name: &'a str,
    pub owner: u32,
    pub public: bool,
    pub top: bool,
    pub pre: usize,
    pub post: usize,
    /// The modifiers that it uses.
    pub uses: &'a [u32],
    pub body: &'a [Act],
}

/// A contract, by its name, the names of the line, and how many invariants it has.
#[derive(Clone, Copy, Debug)]
pub struct Plan<'a> {
    pub name: &'a str,
    pub owners: &'a [&'a str],
    pub invariants: usize,
    pub ctor: &'a [Act],
    pub mods: &'a [&'a [Act]],
    pub funcs: &'a [FuncPlan<'a>],
}
