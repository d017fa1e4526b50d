//! Whether a log allows an entry that splits, cuts, closes, combines or divides, over terms and items by number.
//!
//! Promises: each call answers `None` exactly where the entry is allowed, and else the first cause against it. No call takes memory.
//! Stands on: `sv_term_room`, `sv_branch`, `sv_force`, `sv_derived`, and on `sv_log` for what is allowed.
//! Read first: `specs/EntryJudging.antt`.
#![tactic(auto)]

mod branches;
mod numbers;
mod rows;
mod why;

pub use branches::{clash, close, cut, split};
pub use numbers::{are_columns, is_claim};
pub use rows::{Multiple, combine, divide};
pub use why::Why;
