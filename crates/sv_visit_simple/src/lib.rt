//! The walk over annotations and over statements that end with `;`, for every group of rules.
//!
//! Promises: a walk enters and leaves each node once; the value of a declaration and of a tuple comes before what they declare.
//! Stands on: `sv_visit`, `sv_book`, `sv_plain`, `sv_ast`.
//! Read first: `specs/SimpleSites.antt`, then `judge.rt`.
#![tactic(auto)]

mod judge;
mod simples;

pub use judge::{SimpleJudge, SimpleNode};
pub use simples::{
    walk_bare, walk_note, walk_notes, walk_optional, walk_simple, walk_start, walk_step,
};
