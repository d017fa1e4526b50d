//! The rules of facts by numbers of terms, without memory.
//!
//! Promises: `by_rule` answers exactly whether the rule of a number gives a fact from items in force, as the table of `sv_term` says.
//! Stands on: `sv_pattern` for patterns and terms by number, `sv_force` and `sv_branch` for items in force, `sv_log` and `sv_term` for what a rule gives.
//! Read first: `specs/ItemFacts.antt`, `specs/RuleRows.antt`.
#![tactic(auto)]

mod alike;
mod asking;
mod items;
pub mod laws;
mod patterns;
mod rows;

pub use asking::by_rule;
pub use patterns::is_by_pattern;
