//! What stays true of a branch of a log: its facts and splits are on terms that are there, and its rows are in normal form.
//!
//! Promises: each step of a branch keeps it (`laws`); there is no other code here.
//! Stands on: `sv_branch`, `sv_force`, `sv_row`.
//! Read first: `specs/KeptBranches.antt`.
#![tactic(auto)]

pub mod laws;
