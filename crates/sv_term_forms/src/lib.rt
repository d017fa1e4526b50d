//! The linear forms of a list of terms: what is kept of each term, and whether a row is the form of a fact on one of them.
//!
//! Promises: for every list of terms that the nodes are those of, `Forms::push` makes them those of the list with one more term behind, and `Forms::is_form` is true exactly
//! where the row is the form of the fact. After `new` no call takes memory.
//! Stands on: `sv_form_rows`, and on `sv_log` for what a linear form is.
//! Read first: `specs/FormLists.antt`, `specs/NextTerms.antt`.
#![tactic(auto)]

mod asking;
mod form_node;
mod forms;
mod keeping;
pub mod laws;
#[cfg(test)]
mod tests;

pub use form_node::FormNode;
pub use forms::Forms;
