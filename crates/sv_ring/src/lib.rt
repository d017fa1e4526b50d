//! Structs and constants that reach themselves.
//!
//! Promises: `rings` marks exactly the declarations that reach themselves by one step or more, a step being a struct's to one that a type of its fields names, or a constant's to one that its value names; want of memory is the only other answer.
//! Stands on: `sv_reach`, `sv_member`, `sv_decl`, `sv_text`, `sqlite_items`.
//! Read first: `specs/RingSteps.antt`.
#![tactic(auto)]

mod meant;
mod numbers;
mod scene;
mod steps;

pub use numbers::{number_of, starts_of};
pub use scene::{ConstantUse, Scene};
pub use steps::rings;
