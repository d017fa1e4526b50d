//! The contracts of the first form, and reading them from a list of tokens.
//!
//! Promises: `parse::parse` answers the contract that a list of tokens stands for, which is the only one, and `Unbuilt` exactly where there
//! is none. Comments and places don't matter: the form is a property of the tokens' kinds and texts.
//! Stands on: `sv_text` for names, `sv_lex` for tokens, `sqlite_items` for lists that contracts see as lists.
//! Read first: `specs/FormSymbols.antt` and `specs/FirstForm.antt`, then `src/contract.rt` and `src/parse.rt`.
#![tactic(auto)]

mod contract;
mod form_error;
pub mod parse;
mod reserved;
mod text;

pub use contract::{Act, Contract, Equation, Function, Item, Sum};
pub use form_error::FormError;
pub use text::Text;
