//! What a name may mean, by number.
//!
//! Promises: `target_of` gives a declaration of the table its number among the declarations of its kind in the whole text, in order of the text, and `targets` all
//! of them; want of memory is the only other answer.
//! Stands on: `sv_decl`, `sv_text`, `sqlite_items`.
//! Read first: `specs/TargetNumbers.antt`.
#![tactic(auto)]

mod numbers;
mod target;

pub use numbers::{target_of, targets};
pub use target::{Target, Targets};
