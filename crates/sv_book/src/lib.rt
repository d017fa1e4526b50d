//! Rules asked of the nodes of a text by one pass, whatever the nodes and the rules are.
//!
//! Promises: a pass ends with the fault that counts: of the broken rules whose node has no part that breaks a rule of the
//! group, the first.
//! Stands on: nothing.
//! Read first: `specs/Books.antt`.
#![tactic(auto)]

pub mod laws;
mod pass;

pub use pass::{Pass, Ranked};
