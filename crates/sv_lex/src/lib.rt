//! The tokens of a text.
//!
//! Promises: `lex` answers the tokens of a text, or its first fault, exactly; a text has one list of tokens or one first fault
//! at most; `out_word` and `deep` answer the first token that is left out, and the first that is nested too deeply.
//! Stands on: `sv_text`, `thiserror`.
//! Read first: `specs/Tokens.antt`, then `specs/Faults.antt` and `specs/Lexing.antt`.
#![tactic(auto)]

mod bytes;
mod collector;
mod comment;
mod documentation;
mod fault;
pub mod laws;
mod left_out;
mod lexer;
mod mark;
mod nesting;
mod number;
mod piece;
mod spot;
mod stop;
mod string;
mod tok;
mod token;
mod tokens;

pub use fault::{Flaw, LexFault};
pub use left_out::out_word;
pub use lexer::lex;
pub use nesting::deep;
pub use tok::Tok;
pub use token::Token;
pub use tokens::Tokens;
