//! Tests of what a contract sees by a name, over the table of what a text declares: the tables are made from plans of small texts.
//!
//! Promises: nothing; each expected value is worked by hand.
//! Stands on: `sv_member`, `sv_decl`, `sv_plain`, `sv_text`, `sqlite_items`.
#![tactic(auto)]

pub mod make;
pub mod plan;
#[cfg(test)]
mod seen;
