//! What each node of a text changes of what is known of names, and when it names something unknown.
//!
//! Promises: each call answers what the definition of the same name says: which name a node uses and as what, and what a node is for names. The definitions
//! are a group of rules of its own, which has one rule.
//! Stands on: `sv_naming`, `sv_seen`, `sv_form_book`, `sv_annotation`, `sv_visit`, `sv_rule`, `sv_book` and those below.
//! Read first: `specs/NameUses.antt`, then `specs/NameBook.antt`.
#![tactic(auto)]

mod asks;
mod nodes;
mod uses;

pub use asks::{are_contracts, note_plain, note_use};
pub use nodes::{is_for, note_within, params_count};
pub use uses::{TypeNames, Use, expr_use, head_use, simple_use, slot_use};
