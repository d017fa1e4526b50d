//! Whether a row is the linear form of a fact, over numbers of terms: the questions on nodes and weights, without memory.
//!
//! Promises: for every list of terms that the nodes are those of, `sides_of` gives what the form of a fact is the difference of, `is_difference` is true exactly where a row
//! is that difference and both sides are worked out, and `can_join` exactly where the form of a sum, a difference or a multiple is. No call takes memory.
//! Stands on: `sv_form`, `sv_row`, and on `sv_log` for what a linear form is.
//! Read first: `specs/TermForms.antt`.
#![tactic(auto)]

mod difference;
mod fact_sides;
mod joining;

pub use difference::is_difference;
pub use fact_sides::{Sides, sides_of};
pub use joining::can_join;
