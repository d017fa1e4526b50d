//! The walk over the declarations of a contract, for every group of rules.
//!
//! Promises: a walk enters and leaves each node of a declaration once, in order of what each knows.
//! Stands on: `sv_visit_stmt`, `sv_visit_simple`, `sv_visit`, `sv_book`, `sv_plain`, `sv_ast`.
//! Read first: `specs/DeclSites.antt`, then `judge.rt`.
#![tactic(auto)]

mod decls;
mod functions;
mod judge;

pub use decls::{walk_enum, walk_error, walk_event, walk_struct, walk_variable};
pub use functions::{walk_optional_args, walk_parts};
pub use judge::{DeclJudge, DeclNode, FunctionJudge, FunctionNode};
