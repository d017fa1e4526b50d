//! The rules of the language by name, and which of two faults counts.
//!
//! Promises: of two faults the one at the earlier place counts first, and at one place the one of the lesser number.
//! Stands on: `sv_book`, `sv_text`.
//! Read first: `specs/RuleFaults.antt`.
#![tactic(auto)]

mod fault;
pub mod laws;

pub use fault::{Fault, Rule};
