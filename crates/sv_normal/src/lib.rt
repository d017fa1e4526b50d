//! Rows in normal form: what is made from them is in normal form.
//!
//! Promises: `laws` says so of combinations and divisions.
//! Stands on: `sv_row`, `sv_log`.
//! Read first: `specs/NormalLaws.antt`.
#![tactic(auto)]

pub mod laws;
