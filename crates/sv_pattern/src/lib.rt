//! Patterns of facts and terms, by numbers of terms, without memory.
//!
//! Promises: `follow` answers exactly whether a fact follows from premises by the steps of a pattern, where all are trees.
//! Stands on: `sv_term` for terms and facts, `sv_log` for terms by number; any room of terms that is a `TermNumbers`.
//! Read first: `specs/Patterns.antt`.
#![tactic(auto)]

mod bounds;
mod numbers;
mod opening;
mod related;
mod step;
mod walk;

pub use numbers::{Kind, Name, TermNumbers};
pub use opening::{as_two, is_literal};
pub use step::{Property, REGISTERS, Relation, Sign, Step};
pub use walk::follow;
