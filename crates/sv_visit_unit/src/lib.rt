//! The walk over a whole text, for every group of rules.
//!
//! Promises: a walk enters and leaves each node of a text once, in order of what each knows; a group that is asked of a text
//! ends with the broken rule that counts.
//! Stands on: `sv_visit_decl`, `sv_visit_stmt`, `sv_visit_simple`, `sv_visit`, `sv_book`, `sv_plain`, `sv_ast`.
//! Read first: `specs/UnitSites.antt`, then `judge.rt`.
#![tactic(auto)]

mod judge;
mod units;

pub use judge::{UnitJudge, UnitNode};
pub use units::{ask_unit, walk_unit};
