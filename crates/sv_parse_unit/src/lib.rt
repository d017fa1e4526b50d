//! Whole texts, read from tokens.
//!
//! Promises: `parse_unit` answers the tree of all tokens of a text, or the place of the first token with which no text that has a
//! tree goes on, exactly.
//! Stands on: `sv_parse_stmt`, `sv_notes`, `sv_parse_expr`, `sv_read`, `sv_lex`, `sv_ast`, `sv_grammar`, `sv_text`, `sqlite_items`.
//! Read first: `specs/AnswersUnit.antt`, then the rules of `unit`, `contract` and `part` in `sv_ast`'s `specs/Syntax.antt`.
#![tactic(auto)]

mod contract;
mod declaration;
mod function;
mod parse;
mod reader;
mod unit;

pub use parse::parse_unit;
