//! What a contract sees by a name, in the contracts of its line.
//!
//! Promises: `seen_by` gives each declaration of the name in these contracts, in order of the line, those that are private in another contract aside; want of memory is the only other answer.
//! Stands on: `sv_decl`, `sv_text`, `sqlite_items`.
//! Read first: `specs/SeenNames.antt`.
#![tactic(auto)]

mod seen;

pub use seen::{Hit, is_private, seen_by};
