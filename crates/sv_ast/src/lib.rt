//! The syntax tree, the grammar, and which list of tokens has which tree.
//!
//! Promises: each left side of the grammar derives a list of tokens by one tree at most; for the crates above, that
//! reading a list with one token ahead, by the tables here, ends exactly where it can't go on.
//! Stands on: `sv_text`, `sv_grammar`, `sqlite_items`.
//! Read first: `specs/Syntax.antt`, then `specs/Trees.antt`.
#![tactic(auto)]

mod class;
mod contract;
mod expr;
pub mod laws;
mod note;
mod post;
mod simple;
mod stmt;
mod types;
mod unit;

pub use class::{Class, class_of_mark, class_of_word, words};
pub use contract::{
    Base, Bases, Contract, ContractKind, Ctor, Function, Head, HeadKind, Modifier, ModifierWord,
    Over, Param, Params, Part, PartKind, Special, VarWord, VarWordKind, Variable, VariableWord,
};
pub use expr::{
    And, Arms, Expr, Less, LessOp, LessRest, Or, Power, Prod, ProdOp, ProdRest, Same, SameOp,
    SameRest, Sum, SumOp, SumRest, Term, TermKind, Unary, UnaryOp, UnaryOperand,
};
pub use note::Note;
pub use post::{
    Args, ArgsKind, Atom, AtomKind, NamedArg, Post, Suffix, SuffixKind, Unit10, Unit10Kind,
};
pub use simple::{
    Action, ActionKind, AssignOp, AssignOpKind, Assignment, Decl, Return, Returned, Simple,
    SimpleKind, Slot, SlotKind, Tuple,
};
pub use stmt::{
    Block, Body, BodyKind, Else, ElseIf, For, ForStart, If, Keyword, Stmt, StmtKind, While,
};
pub use types::{Dimension, Plain, PlainKind, TypeExpr, Where, WhereKind};
pub use unit::{Enum, ErPar, Error, EvPar, Event, Field, FileConst, Struct, Unit, UnitItem};
