use crate::text::Text;
use sqlite_items::Items;

/// An item of a sum.
#[derive(Clone, Copy, Debug, PartialEq, Eq)]
pub enum Item {
    /// A variable, by its place among the contract's variables.
    Variable(usize),
    /// A number as it is written.
    Number(u64),
}

/// Items that are added up.
pub type Sum = Items<Item>;

/// The claim that two sums are equal.
#[derive(Drop)]
pub struct Equation {
    pub left: Sum,
    pub right: Sum,
}

/// A statement of a function.
#[derive(Drop)]
pub enum Act {
    /// The variable gets the value of the sum.
    Assign(usize, Sum),
    /// The function goes on only where the equation is true.
    Require(Equation),
}

/// A public function without parameters.
#[derive(Drop)]
pub struct Function<'a> {
    pub name: Text<'a>,
    pub acts: Items<Act>,
}

/// A contract of the first form.
#[derive(Drop)]
pub struct Contract<'a> {
    pub name: Text<'a>,
    pub variables: Items<Text<'a>>,
    pub invariants: Items<Equation>,
    pub functions: Items<Function<'a>>,
}
