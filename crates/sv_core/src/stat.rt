use crate::expr::{CExpr, Op};
use sqlite_items::Items;
use sv_text::Place;

/// A statement with its number, counted from 1 in its body in order of the text. Its place is its first byte, that of a loop
/// its keyword.
#[cycle(statements)]
#[derive(Drop)]
pub struct Stat {
    pub no: u32,
    pub place: Place,
    pub kind: StatKind,
}

/// A condition, and what is run where it is the first that is true.
#[cycle(statements)]
#[derive(Drop)]
pub struct Arm {
    pub test: CExpr,
    pub body: Items<Stat>,
}

/// What a statement is.
#[cycle(statements)]
#[derive(Drop)]
pub enum StatKind {
    /// An assignment: the target and the value.
    Set(CExpr, CExpr),
    /// An assignment with an operator: the target, the operator and the right operand.
    Update(CExpr, Op, CExpr),
    /// `delete a`.
    Delete(CExpr),
    /// An expression alone.
    Do(CExpr),
    /// Several values into locals, of which some are dropped.
    Many(Items<Option<u32>>, CExpr),
    /// The conditions in order with what each guards, and what is run where none is true.
    If(Items<Arm>, Items<Stat>),
    /// The loop's invariants, its condition, its body, and what is run after each turn.
    Loop(Items<CExpr>, CExpr, Items<Stat>, Items<Stat>),
    /// `break`.
    Break,
    /// `continue`.
    Continue,
    /// `return`, with its values.
    Return(Items<CExpr>),
    /// `require(c)`.
    Require(CExpr),
    /// `assert(c)`.
    Assert(CExpr),
    /// `revert`, with the values of its error.
    Revert(Items<CExpr>),
    /// `emit`, with the values of its event.
    Emit(Items<CExpr>),
    /// `_` of a modifier.
    Rest,
    /// A body that a `return` inside it leaves. Only bodies whose modifiers are expanded have one.
    Frame(Items<Stat>),
}
