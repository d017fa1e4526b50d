use crate::expr::Expr;
use crate::note::Note;
use crate::post::Args;
use crate::stmt::Block;
use crate::types::{TypeExpr, Where};
use crate::unit::{Enum, Error, Event, Struct};
use sqlite_items::Items;
use sv_text::{Name, Place, Span};

/// A contract or an interface, as `contract C is B { .. }`.
#[derive(Drop)]
pub struct Contract {
    pub kind: ContractKind,
    pub span: Span,
    pub place: Place,
}

/// Whether it is a contract or an interface.
#[derive(Drop)]
pub enum ContractKind {
    /// `contract C { .. }`, or `abstract contract C { .. }`.
    Contract {
        notes: Items<Note>,
        is_abstract: bool,
        name: Name,
        bases: Bases,
        parts: Items<Part>,
    },
    /// `interface I { .. }`.
    Interface {
        name: Name,
        bases: Bases,
        parts: Items<Part>,
    },
}

/// The bases of a contract, as `is A, B(1)`, or nothing.
#[derive(Drop)]
pub struct Bases {
    pub bases: Items<Base>,
    pub span: Span,
    pub place: Place,
}

/// A base with its arguments, as `B(1)`, or without.
#[derive(Drop)]
pub struct Base {
    pub name: Name,
    pub args: Option<Args>,
    pub span: Span,
    pub place: Place,
}

/// A declaration in a contract.
#[derive(Drop)]
pub struct Part {
    pub kind: PartKind,
    pub span: Span,
    pub place: Place,
}

/// Which declaration it is.
#[derive(Drop)]
pub enum PartKind {
    /// `uint256 public a = 1;`.
    Variable(Variable),
    /// `function f() public { .. }`.
    Function(Function),
    /// `constructor() { .. }`.
    Ctor(Ctor),
    /// `receive() external payable { .. }`.
    Special(Special),
    /// `modifier m() { _; }`.
    Modifier(Modifier),
    /// `struct S { uint256 a; }`.
    Struct(Struct),
    /// `enum E { A, B }`.
    Enum(Enum),
    /// `event E(uint256 a);`.
    Event(Event),
    /// `error E(uint256 a);`.
    Error(Error),
}

/// A state variable or a constant, as `uint256 public a = 1;`.
#[derive(Drop)]
pub struct Variable {
    pub of_type: TypeExpr,
    pub words: Items<VariableWord>,
    pub name: Name,
    pub value: Option<Expr>,
    pub span: Span,
    pub place: Place,
}

/// A word between the type and the name of a variable.
#[derive(Drop)]
pub enum VariableWord {
    /// `public` and the like.
    Word(VarWord),
    /// `override`.
    Over(Over),
}

/// A word of a variable, as `public`.
#[derive(Clone, Copy, Debug, PartialEq, Eq)]
pub struct VarWord {
    pub kind: VarWordKind,
    pub span: Span,
    pub place: Place,
}

/// Which word of a variable it is.
#[derive(Clone, Copy, Debug, PartialEq, Eq)]
pub enum VarWordKind {
    /// `public`.
    Public,
    /// `private`.
    Private,
    /// `internal`.
    Internal,
    /// `constant`.
    Constant,
    /// `immutable`.
    Immutable,
}

/// A function, as `function f(uint256 a) public returns (uint256) { .. }`; without a body it ends with `;`.
#[derive(Drop)]
pub struct Function {
    pub notes: Items<Note>,
    pub name: Name,
    pub params: Params,
    pub heads: Items<Head>,
    pub results: Option<Params>,
    pub body: Option<Block>,
    pub span: Span,
    pub place: Place,
}

/// A constructor, as `constructor(uint256 a) B(a) { .. }`.
#[derive(Drop)]
pub struct Ctor {
    pub notes: Items<Note>,
    pub params: Params,
    pub heads: Items<Head>,
    pub body: Block,
    pub span: Span,
    pub place: Place,
}

/// A function without a name, as `receive() external payable { .. }`, with its keyword `receive` or `fallback`.
#[derive(Drop)]
pub struct Special {
    pub notes: Items<Note>,
    pub word: Name,
    pub heads: Items<Head>,
    pub body: Block,
    pub span: Span,
    pub place: Place,
}

/// A modifier, as `modifier m(uint256 a) virtual { _; }`.
#[derive(Drop)]
pub struct Modifier {
    pub name: Name,
    pub params: Option<Params>,
    pub words: Items<ModifierWord>,
    pub body: Block,
    pub span: Span,
    pub place: Place,
}

/// A word of a modifier.
#[derive(Drop)]
pub enum ModifierWord {
    /// `virtual`.
    Virtual,
    /// `override`.
    Over(Over),
}

/// A word of a function, or a modifier or a base that it uses.
#[derive(Drop)]
pub struct Head {
    pub kind: HeadKind,
    pub span: Span,
    pub place: Place,
}

/// Which word of a function it is.
#[derive(Drop)]
pub enum HeadKind {
    /// `public`.
    Public,
    /// `private`.
    Private,
    /// `internal`.
    Internal,
    /// `external`.
    External,
    /// `pure`.
    Pure,
    /// `view`.
    View,
    /// `payable`.
    Payable,
    /// `virtual`.
    Virtual,
    /// `override`.
    Over(Over),
    /// A modifier or a base, as `onlyOwner` or `B(1)`.
    Use { name: Name, args: Option<Args> },
}

/// The word `override`, with names as in `override(A, B)`, or without.
#[derive(Drop)]
pub struct Over {
    pub names: Items<Name>,
    pub span: Span,
    pub place: Place,
}

/// Parameters in parentheses, as `(uint256 a, bool)`.
#[derive(Drop)]
pub struct Params {
    pub params: Items<Param>,
    pub span: Span,
    pub place: Place,
}

/// A parameter, as `uint256[] memory a`.
#[derive(Drop)]
pub struct Param {
    pub of_type: TypeExpr,
    pub location: Option<Where>,
    pub name: Option<Name>,
    pub span: Span,
    pub place: Place,
}
