//! The sort of a log's line by number: it is taken into a room of terms.
//!
//! Promises: `add_log_sort` answers the number of the sort, or that it is none; the terms stay the same, and no memory is taken.
//! Stands on: `sv_term_room` and `sv_sort_room` (sorts by number), `sv_cert` (the sorts of logs).
//! Read first: `specs/TakenSorts.antt`.
#![tactic(auto)]

mod add;

pub use add::add_log_sort;
