//! The shape of a log's node by number: its numbers are those that a room of terms can hold, and its sort is taken in.
//!
//! Promises: `log_shape` answers the shape, or that no node of that shape fits; the terms stay the same, and no memory is taken.
//! Stands on: `sv_term_room` (shapes), `sv_log_sort` (sorts), `sv_node_sort` (what a shape may name), `sv_cert` (the nodes of logs).
//! Read first: `specs/LoggedShapes.antt`.
#![tactic(auto)]

mod held;
mod parts;
mod shape;

pub use parts::gather;
pub use shape::log_shape;
