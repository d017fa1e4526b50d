//! The checker of logs: it judges a log entry by entry, without memory.
//!
//! Promises: `Checker::step` accepts exactly the entries that the definition of logs allows, with the state that it says, and else names the first cause;
//! a closed checker has proved its goal (`laws`). After `begin` no call takes memory.
//! Stands on: `sv_given`, `sv_allowed` (which entries are allowed), `sv_new_term`, `sv_beside` (new terms), `sv_branch_kept`, `sv_branch` (branches),
//! `sv_room` (how much room), and on `sv_log` for what a log is.
//! Read first: `specs/Checkers.antt`.
#![tactic(auto)]

mod checker;
mod judgement;
pub mod laws;
mod parts;
mod rooms;

pub use checker::Checker;
pub use judgement::Step;
pub use sv_allowed::Why;
pub use sv_room::{Room, room_of};
