//! Histories and verdicts that the definitions of `sv_sem` give, worked out by hand.
//!
//! Promises: each example comes out as it was written down before.
//! Stands on: `sv_sem`.
//! Read first: `specs/Writing.antt`, `specs/BankHistories.antt`.
#![tactic(auto)]

pub mod examples;
