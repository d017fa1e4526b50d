//! Which contracts are bases of a contract, direct or indirect: the one question of the first group of rules that takes memory.
//!
//! Promises: `Bases::new` reads once who names whom as a base, and `has` answers each question exactly. Want of memory is the only other answer.
//! Stands on: `sv_form_book`, `sv_form_sites`, `sv_reach`, `sv_ast`, `sv_text`, `sqlite_items`.
//! Read first: `specs/FormBases.antt` of `sv_form_book`.
#![tactic(auto)]

mod bases;
mod edges;
mod graph;

pub use bases::Bases;
