use crate::contract::Contract;
use crate::expr::Expr;
use crate::types::TypeExpr;
use sqlite_items::Items;
use sv_text::{Name, Place, Span};

/// A whole text.
#[derive(Drop)]
pub struct Unit {
    pub items: Items<UnitItem>,
    pub span: Span,
    pub place: Place,
}

/// What stands in a text.
#[derive(Drop)]
pub enum UnitItem {
    /// A pragma with its text, as `pragma solidity ^0.8.0;`.
    Pragma(Name),
    /// `contract C { .. }` or `interface I { .. }`.
    Contract(Contract),
    /// `struct S { uint256 a; }`.
    Struct(Struct),
    /// `enum E { A, B }`.
    Enum(Enum),
    /// `event E(uint256 a);`.
    Event(Event),
    /// `error E(uint256 a);`.
    Error(Error),
    /// `uint256 constant a = 1;`.
    FileConst(FileConst),
}

/// A constant outside all contracts, as `uint256 constant a = 1;`.
#[derive(Drop)]
pub struct FileConst {
    pub of_type: TypeExpr,
    pub name: Name,
    pub value: Expr,
    pub span: Span,
    pub place: Place,
}

/// A struct with one field or more, as `struct S { uint256 a; bool b; }`.
#[derive(Drop)]
pub struct Struct {
    pub name: Name,
    pub fields: Items<Field>,
    pub span: Span,
    pub place: Place,
}

/// A field of a struct, as `uint256 a;`.
#[derive(Drop)]
pub struct Field {
    pub of_type: TypeExpr,
    pub name: Name,
    pub span: Span,
    pub place: Place,
}

/// An enum with one member or more, as `enum E { A, B }`.
#[derive(Drop)]
pub struct Enum {
    pub name: Name,
    pub members: Items<Name>,
    pub span: Span,
    pub place: Place,
}

/// An event, as `event E(uint256 indexed a) anonymous;`.
#[derive(Drop)]
pub struct Event {
    pub name: Name,
    pub params: Items<EvPar>,
    pub is_anonymous: bool,
    pub span: Span,
    pub place: Place,
}

/// A parameter of an event, as `uint256 indexed a`.
#[derive(Drop)]
pub struct EvPar {
    pub of_type: TypeExpr,
    pub is_indexed: bool,
    pub name: Option<Name>,
    pub span: Span,
    pub place: Place,
}

/// An error, as `error E(uint256 a);`.
#[derive(Drop)]
pub struct Error {
    pub name: Name,
    pub params: Items<ErPar>,
    pub span: Span,
    pub place: Place,
}

/// A parameter of an error, as `uint256 a`.
#[derive(Drop)]
pub struct ErPar {
    pub of_type: TypeExpr,
    pub name: Option<Name>,
    pub span: Span,
    pub place: Place,
}
