//! The table of what a text declares.

use sqlite_items::Items;
use sv_ast::WhereKind;
use sv_plain::Spot;
use sv_text::{Name, Span};

/// What a text declares, in order of the text. A contract's number is its position in the list.
#[derive(Drop)]
pub struct DeclaredText {
    pub contracts: Items<DeclaredContract>,
    /// Structs, enums, events, errors and constants outside all contracts.
    pub outside: Items<Declaration>,
}

/// Whether a contract can be created.
#[derive(Clone, Copy, Debug, PartialEq, Eq)]
pub enum Standing {
    /// `contract C`.
    Concrete,
    /// `abstract contract C`.
    Abstract,
    /// `interface I`.
    Interface,
}

/// A contract or an interface.
#[derive(Drop)]
pub struct DeclaredContract {
    pub name: Name,
    pub standing: Standing,
    /// As they stand in the text, the most basic first.
    pub bases: Items<Named>,
    pub declarations: Items<Declaration>,
    pub spot: Spot,
}

/// A base in a list of bases, or a name behind the parameters of a function: a modifier that it uses or a base.
#[derive(Clone, Copy, Debug, PartialEq, Eq)]
pub struct Named {
    pub name: Name,
    pub given: Option<Given>,
    pub spot: Spot,
}

/// Arguments: how many there are, in order or by name, and where they stand.
#[derive(Clone, Copy, Debug, PartialEq, Eq)]
pub struct Given {
    pub count: usize,
    pub spot: Spot,
}

/// What is declared in a contract or outside of all.
#[derive(Drop)]
pub struct Declaration {
    /// A constructor has none; `receive` and `fallback` have their word.
    pub name: Option<Name>,
    pub kind: DeclarationKind,
    pub spot: Spot,
}

/// Which declaration it is.
#[derive(Drop)]
pub enum DeclarationKind {
    /// A state variable or a constant; where its value stands.
    Variable {
        of_type: Items<TypePiece>,
        words: Items<Word>,
        value: Option<Span>,
    },
    /// A function, a constructor, `receive` or `fallback`, or a modifier.
    Callable(Signature),
    Struct(Items<Member>),
    Enum(Items<Name>),
    Event(Items<Member>),
    Error(Items<Member>),
}

/// Which of those that have a body it is.
#[derive(Clone, Copy, Debug, PartialEq, Eq)]
pub enum Callable {
    Function,
    Constructor,
    /// `receive` or `fallback`.
    Special,
    Modifier,
}

/// All of a function but its body.
#[derive(Drop)]
pub struct Signature {
    pub callable: Callable,
    pub params: Items<Member>,
    pub results: Items<Member>,
    pub words: Items<Word>,
    /// The modifiers that it uses; behind a constructor the bases, too.
    pub uses: Items<Named>,
    pub has_body: bool,
}

/// A parameter, a result or a field.
#[derive(Drop)]
pub struct Member {
    pub name: Option<Name>,
    pub of_type: Items<TypePiece>,
    pub location: Option<WhereKind>,
    pub spot: Spot,
}

/// A word of a declaration.
#[derive(Clone, Copy, Debug, PartialEq, Eq)]
pub enum Word {
    Public,
    Private,
    Internal,
    External,
    Pure,
    View,
    Payable,
    Virtual,
    Override,
    Constant,
    Immutable,
}

/// A piece of a type. A type is the list of its pieces, each behind its parts: `uint256[3][]` is `uint256`, `[3]`, `[]`, and a mapping
/// stands behind its key and its value.
#[derive(Clone, Copy, Debug, PartialEq, Eq)]
pub enum TypePiece {
    /// A type with a name of its own, as `uint256`.
    Elementary(Name),
    /// `address`, or `address payable`.
    Address(bool),
    String,
    /// A declared type, as `S`.
    Named(Name),
    /// A declared type of a contract, as `C.S`.
    Member(Name, Name),
    Mapping,
    /// `[]`.
    Dynamic,
    /// Brackets with a length, as `[3]`, and where the length stands.
    Fixed(Span),
}
