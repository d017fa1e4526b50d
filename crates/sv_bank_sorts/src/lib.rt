//! The sorts of a bank as sorts of a room: which number each has there.
//!
//! Promises: `number_sorts` puts the first sorts of a bank into a room that has the room, and says the number of each; `cells_for` says how
//! much room that takes at most. Neither goes down into a sort: a sort's parts come before it in its bank.
//! Stands on: `sv_term` for banks, `sv_sort_room` for rooms.
//! Read first: `specs/SortNumbering.antt`.
#![tactic(auto)]

mod fill;
mod need;

pub use fill::number_sorts;
pub use need::cells_for;
