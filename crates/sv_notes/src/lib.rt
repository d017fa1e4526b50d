//! Annotation lines, read from tokens.
//!
//! Promises: `read_notes` answers the annotation lines with which tokens begin, as trees, or the place of the first token with
//! which none goes on; `read_note` reads a line for the parsers above.
//! Stands on: `sv_parse_expr`, `sv_read`, `sv_ast`, `sv_grammar`, `sv_lex`, `sv_text`, `sqlite_items`, `thiserror`.
//! Read first: the rule of `note_line` in `sv_ast`'s `specs/Syntax.antt`, then `sv_parse_expr`'s `specs/Answers.antt`.
#![tactic(auto)]

mod lines;
mod parse;

pub use lines::read_note;
pub use parse::read_notes;
