//! Statements, read from the tokens of a text.
//!
//! Promises: `parse_stmt` answers the tree of the longest tokens that begin a statement, or the place where they are none, exactly;
//! for the parser of whole texts, readers of statements, of blocks and of where a value lies over a `Cursor`.
//! Stands on: `sv_notes`, `sv_parse_expr`, `sv_read`, `sv_ast`, `sv_grammar`, `sv_lex`, `sv_text`, `sqlite_items`.
//! Read first: the rules from `block` on in `sv_ast`'s `specs/Syntax.antt`, then `sv_parse_expr`'s `specs/Answers.antt`.
#![tactic(auto)]

mod action;
mod block;
mod decl;
mod if_stmt;
mod loops;
mod parse;
mod reader;
mod returns;
mod simple;
mod tuple;
mod two_or_more;

pub use decl::read_location;
pub use parse::parse_stmt;
pub use reader::{read_block, read_stmt};
