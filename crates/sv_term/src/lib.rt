//! Sorts and terms, what they mean, the rules by which facts about them follow, and a bank that keeps terms by number.
//!
//! Promises: each rule is true in every model, and the test of a rule says what the table says; a bank gives each node one number, and
//! numbers that were given keep what they stand for; `fits` is true exactly where a node may be added; a new book has no rules.
//! Stands on: `sv_text`, `indexmap`, `smallvec`.
//! Read first: `specs/Terms.antt`, `specs/Models.antt`, `specs/Banks.antt`; the tables of nodes and rules stand in the README.
#![tactic(auto)]

mod args;
mod bank;
mod book;
pub mod laws;
mod node;
mod sorting;

pub use args::Args;
pub use bank::Bank;
pub use book::RuleBook;
pub use node::{Node, Range, SortId, SortNode, TermId};
