//! One condition for each label of a command.
//!
//! Promises: one condition for each label, in order, valid exactly where no run of the command fails at its label; and how many terms they add.
//! Stands on: `sv_gcl`, `sv_term`, `sv_core`, `sv_text`, `indexmap`, `sqlite_items`.
//! Read first: `specs/AnsweredConditions.antt`, then `src/answering.rt`, then `specs/ConditionWalk.antt`.
#![tactic(auto)]

mod answer;
mod answering;
mod gathering;
mod joining;
pub mod laws;
mod nodes;
mod preparing;
mod replacing;
mod setting;
mod state;
mod steps;
mod walking;

pub use answer::{Condition, Conditions};
pub use answering::conditions;
