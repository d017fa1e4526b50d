//! Terms by number, in rooms of fixed size: a term has one number, and a number one term.
//!
//! Promises: `node` gives a term by the numbers of its arguments, `find` the number of a term, `push` adds one; after `new` no call takes memory.
//! Stands on: `sv_sort_room` (sorts by number), `sv_list_room` (the arguments), `sv_table`, `sv_text`; on `sv_term` for what a term is, and on
//! `sv_log` for the term of a number.
//! Read first: `specs/TermRows.antt`.
#![tactic(auto)]

mod code;
mod room;
mod shape;

pub use room::TermRoom;
pub use shape::Shape;
