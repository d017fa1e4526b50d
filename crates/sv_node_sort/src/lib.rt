//! Whether a node fits over terms by number, and the sort that it then has.
//!
//! Promises: `sort_needed` answers exactly where the node fits, and with its sort; it takes no memory.
//! Stands on: `sv_term_room` and `sv_sort_room` (terms and sorts by number), and on `sv_term` for which nodes fit.
//! Read first: `specs/NeededSorts.antt`.
#![tactic(auto)]

mod ask;
mod needed;
mod sorts;
mod tuple;

pub use ask::sort_needed;
pub use needed::Needed;
