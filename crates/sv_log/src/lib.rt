//! Logs of a condition: what they hold, what an entry may do, and that a closed one proves its condition.
//!
//! Promises: the laws of `laws`; there is no code here.
//! Stands on: `sv_term` (terms, models, the rules of facts), `sv_num` (the range of `i128`).
//! Read first: `specs/LogEntries.antt`, then `specs/Logs.antt`.
#![tactic(auto)]

pub mod laws;
