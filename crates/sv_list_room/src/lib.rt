//! Lists of numbers by number, in rooms of fixed size: all of them stand one after another in one list.
//!
//! Promises: `list` gives the list of that number as `push` was given it; after `new` no call takes memory.
//! Stands on: `sv_text`.
//! Read first: `specs/NumberLists.antt`.
#![tactic(auto)]

mod room;

pub use room::ListRoom;
