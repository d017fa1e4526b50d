//! How much room a node of a log takes: its arguments, and the sorts that it may add.
//!
//! Promises: `term_count` and `sort_count` are the counts that `sv_new_term` asks for, and `has_room` whether a room of terms has them.
//! Stands on: `sv_new_term`, `sv_log_shape` and `sv_log_sort` for the counts, `sv_term_room`, `sv_cert` (the nodes of logs).
//! Read first: `specs/RoomCounts.antt`.
#![tactic(auto)]

mod cells;
mod count;

pub use count::{has_room, sort_count, term_count};
