//! Which rules of the first group a node breaks, and what a pass keeps of them.
//!
//! Promises: `close` asks each rule of the group once, in order.
//! Stands on: `sv_rule`, `sv_book`, `sv_text`.
//! Read first: `specs/FormMarks.antt`.
#![tactic(auto)]

mod marks;

pub use marks::{Marks, close};
