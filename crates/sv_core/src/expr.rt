use sqlite_items::{Boxed, Items};
use sv_text::Place;
use sv_type::TypeNo;

/// Where a value of a type is held.
#[derive(Clone, Copy, Debug, PartialEq, Eq)]
pub enum Loc {
    /// In the variable itself: the type is a value type.
    Value,
    /// In memory or calldata: the variable holds a reference to an object.
    Memory,
    /// In storage: the variable holds a path.
    Storage,
}

/// A number that the environment of a call gives.
#[derive(Clone, Copy, Debug, PartialEq, Eq)]
pub enum EnvName {
    /// `msg.sender`.
    Sender,
    /// `msg.value`.
    Value,
    /// `block.timestamp`.
    Time,
    /// `block.number`.
    Number,
    /// `address(this)`.
    This,
    /// `address(this).balance`.
    Balance,
}

/// How another account is called.
#[derive(Clone, Copy, Debug, PartialEq, Eq)]
pub enum OutKind {
    /// `a.transfer(v)`, which reverts where the call fails.
    Transfer,
    /// `a.send(v)`, which answers whether the call succeeded.
    Send,
    /// `a.call{value: v}("")`, which answers whether the call succeeded.
    Call,
    /// `c.f(x)`, which answers the results of `f`, and reverts where the call fails.
    Typed,
}

/// An operator.
#[derive(Clone, Copy, Debug, PartialEq, Eq)]
pub enum Op {
    /// `+`.
    Add,
    /// `-` between two operands.
    Sub,
    /// `*`.
    Mul,
    /// `/`, which rounds toward zero.
    Div,
    /// `%`, with the sign of its left operand.
    Mod,
    /// `==`.
    Eq,
    /// `!=`.
    Ne,
    /// `<`.
    Lt,
    /// `>`.
    Gt,
    /// `<=`.
    Le,
    /// `>=`.
    Ge,
    /// `&&`.
    And,
    /// `||`.
    Or,
    /// `!`.
    Not,
    /// `-` before one operand.
    Neg,
}

/// An expression with its type, and the place of its first byte without brackets of its own. One that gives no value, or
/// several, has the type `bool`.
#[cycle(expressions)]
#[derive(Drop)]
pub struct CExpr {
    pub place: Place,
    pub t: TypeNo,
    pub kind: CKind,
}

/// What an expression is.
#[cycle(expressions)]
#[derive(Drop)]
pub enum CKind {
    /// A number: its magnitude, with true for one that is negative.
    Num(bool, u128),
    /// `true` or `false`.
    Truth(bool),
    /// A local variable, by its place among the locals.
    Local(u32),
    /// A state variable or an immutable, by its place among the contract's variables.
    State(u32),
    /// A number of the environment.
    Env(EnvName),
    /// A field of a struct, counted from 0.
    Field(Boxed<CExpr>, u32),
    /// An element of an array or a mapping, and its index or key.
    Index(Boxed<CExpr>, Boxed<CExpr>),
    /// The length of an array.
    Length(Boxed<CExpr>),
    /// An operator before its operand.
    Unary(Op, Boxed<CExpr>),
    /// An operator between its operands.
    Binary(Op, Boxed<CExpr>, Boxed<CExpr>),
    /// `c ? a : b`.
    Cond(Boxed<CExpr>, Boxed<CExpr>, Boxed<CExpr>),
    /// A conversion to the expression's type.
    Convert(Boxed<CExpr>),
    /// The greatest value of the expression's type for true, the least for false.
    Limit(bool),
    /// A call from inside: the function's place among the contract's functions, and the arguments.
    Call(u32, Items<CExpr>),
    /// A call of another account: how, whom, the value that is sent, the arguments, and for `Typed` the types of the results.
    Outside(OutKind, Boxed<CExpr>, Option<Boxed<CExpr>>, Items<CExpr>, Items<TypeNo>),
    /// `a.push()` or `a.push(x)`.
    Push(Boxed<CExpr>, Option<Boxed<CExpr>>),
    /// `a.pop()`.
    Pop(Boxed<CExpr>),
    /// A new object in memory from its fields, or without fields the default object of its type.
    Make(Items<CExpr>),
    /// `new T[](n)`.
    NewArray(Boxed<CExpr>),
    /// A whole copy into memory or storage.
    Copy(Loc, Boxed<CExpr>),
    /// The value at the entry of the function, in a postcondition.
    Old(Boxed<CExpr>),
    /// The sum of a mapping, by its place among the contract's variables.
    Sum(u32),
}
