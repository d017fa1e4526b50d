//! One walk over the nodes of expressions and types, for every group of rules.
//!
//! Promises: a walk enters and leaves each node of an expression or a type once, in order of the text.
//! Stands on: `sv_book`, `sv_plain`, `sv_ast`, `sv_text`.
//! Read first: `specs/ExprSites.antt`, then `judge.rt`.
#![tactic(auto)]

mod exprs;
mod judge;

pub use exprs::{walk_args, walk_expr, walk_type};
pub use judge::{Judge, Role, Use};
