//! Declarations that are held against each other by rules along lines: those of one sort and one name.
//!
//! Promises: each answer is exact, and no call takes memory.
//! Stands on: `sv_typed`, `sv_decl`, `sqlite_items`.
//! Read first: `specs/Rivals.antt`.
#![tactic(auto)]

mod along;
mod rival;
mod word;

pub use along::{declarations_of, has, has_rival, line_of, or_empty, types_of};
pub use rival::{have_same_params, is_function, is_rival, same_name, sort_of, stands_before};
pub use word::{is_external, is_override, is_public, is_virtual};
