//! What a text declares, as a table of plain data.
//!
//! Promises: `declared_text` gives the contracts of a text with their bases and declarations, and what is declared outside of them, in order of the text; want of memory is the only other answer.
//! Stands on: `sv_plain`, `sv_ast`, `sv_text`, `sqlite_items`.
//! Read first: `data.rt`, then `specs/Declarations.antt`.
#![tactic(auto)]

mod data;
mod gather;
mod parts;
mod pieces;
mod rows;
mod texts;

pub use data::{
    Callable, Declaration, DeclarationKind, DeclaredContract, DeclaredText, Given, Member, Named,
    Signature, Standing, TypePiece, Word,
};
pub use texts::declared_text;
