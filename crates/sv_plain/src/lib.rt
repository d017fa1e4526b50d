//! The syntax tree as plain data, and expressions of it seen by their form.
//!
//! Promises: a view of an expression shows the form that its plain data has, in place of the 29 types of the tree.
//! Stands on: `sv_ast`, `sv_text`, `sqlite_items`.
//! Read first: `specs/PlainExprs.antt`, then `view.rt`.
#![tactic(auto)]

mod operator;
mod spot;
pub mod view;

pub use operator::Operator;
pub use spot::Spot;
