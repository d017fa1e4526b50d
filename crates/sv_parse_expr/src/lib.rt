//! Expressions, types and arguments, read from the tokens of a text.
//!
//! Promises: `parse_expr`, `parse_type` and `parse_args` answer the tree of the longest tokens that begin a list of the
//! grammar, or the place where they are no such list, exactly; for the crates above, readers of the same over a `Cursor`.
//! Stands on: `sv_read`, `sv_lex`, `sv_ast`, `sv_grammar`, `sv_text`, `sqlite_items`, `thiserror`.
//! Read first: `specs/Answers.antt`, then `specs/Given.antt`.
#![tactic(auto)]

mod operators;
mod parse;
mod parse_fault;
mod post;
mod reader;
mod symbols;
mod types;

pub use operators::sees_expr;
pub use parse::{parse_args, parse_by, parse_expr, parse_type};
pub use parse_fault::ParseFault;
pub use reader::{read_args, read_expr, read_type};
pub use symbols::symbols_of;
pub use types::sees_type;
