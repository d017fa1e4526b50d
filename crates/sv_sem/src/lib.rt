//! The meaning of contracts: histories, modular runs, and when a contract is safe.
//!
//! Promises: nothing by code. The definitions in `specs/` say what the verdicts of the crates above mean.
//! Stands on: `sv_core`, `sv_type`, `sv_text`.
//! Read first: `specs/States.antt`, `specs/Runs.antt`, `specs/Histories.antt`, `specs/Safety.antt`.
#![tactic(auto)]
