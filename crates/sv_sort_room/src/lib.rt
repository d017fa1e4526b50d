//! Sorts by number, in a room of fixed size: a sort has one number, and a number one sort.
//!
//! Promises: `cell` gives a sort by the numbers of its parts, `add` the number of a sort; after `new` no call takes memory.
//! Stands on: `sv_table`, `sv_text`, and on `sv_term` for what a sort is.
//! Read first: `specs/SortCells.antt`.
#![tactic(auto)]

mod cell;
mod room;

pub use cell::Cell;
pub use room::SortRoom;
