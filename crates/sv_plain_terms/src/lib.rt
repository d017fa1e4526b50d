//! Terms in a room as rules of facts ask for them, with a flag for each: whether it is plain.
//!
//! Promises: `over` makes a room of terms and its flags a `TermNumbers`; `is_plain_node` gives the flag of a term by those of the terms before it.
//! Stands on: `sv_term_room` for terms by number, `sv_pattern` for what rules ask.
//! Read first: `specs/PlainFlags.antt`.
#![tactic(auto)]

mod flags;
mod kinds;
mod terms;

pub use flags::is_plain_node;
pub use terms::{PlainTerms, over};
