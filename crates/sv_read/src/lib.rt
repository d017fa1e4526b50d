//! A cursor over the tokens of a text, and the parts of the grammar as types.
//!
//! Promises: a type that stands for a part is read from the cursor on exactly as the grammar reads the part a token ahead: its
//! tree, or the position of the fault; and what nests is read behind a token alone, with no test of it.
//! Stands on: `sv_ast`, `sv_grammar`, `sv_lex`, `sv_text`, `sqlite_items`, `thiserror`.
//! Read first: `specs/Here.antt`, then `src/parse.rt`.
#![tactic(auto)]

mod both;
mod cursor;
mod either;
mod listed;
mod parse;
mod parse_error;
mod parts;
mod symbol;
mod word;

pub use both::{Both, Classes};
pub use cursor::{Cursor, Extent};
pub use either::Either;
pub use listed::{Commas, Led, Listed};
pub use parse::{Begins, Nested, Parse};
pub use parse_error::ParseError;
pub use parts::{placed, with};
pub use sv_ast::{Class, words};
pub use symbol::{Symbol, class_of};
pub use word::{Kept, Word, behind};
