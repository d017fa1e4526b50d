//! The walk over statements, for every group of rules.
//!
//! Promises: a walk enters and leaves each node of a statement once, in order of what each knows.
//! Stands on: `sv_visit_simple`, `sv_visit`, `sv_book`, `sv_plain`, `sv_ast`.
//! Read first: `specs/StmtSites.antt`, then `judge.rt`.
#![tactic(auto)]

mod judge;
mod stmts;

pub use judge::{StmtJudge, StmtNode};
pub use stmts::{walk_block, walk_stmt};
