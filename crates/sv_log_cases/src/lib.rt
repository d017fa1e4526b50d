//! A log worked by hand, and its neighbours that are rejected.
//!
//! Promises: it is accepted and closed at its cost; for each cause an entry is rejected (`laws`).
//! Stands on: `sv_log`.
//! Read first: `specs/LogExamples.antt`.
#![tactic(auto)]

pub mod laws;
