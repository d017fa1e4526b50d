//! A new term of a log: its node doesn't fit, is there, or is added to a room of terms.
//!
//! Promises: `offer` answers which of the three it is, exactly; where the node isn't added the room is as before; no memory is taken.
//! Stands on: `sv_log_shape`, `sv_log_sort` and `sv_node_sort` (the node by number), `sv_term_room` (the terms), `sv_cert` (the nodes of logs).
//! Read first: `specs/Offers.antt`.
#![tactic(auto)]

mod by_number;
mod entry;

pub use entry::{Outcome, offer};
