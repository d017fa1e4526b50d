//! Of which contracts each contract sees the names.
//!
//! Promises: `each_sight` gives for each contract its line, and all contracts that it reaches through bases where it has none; want of memory is the only other
//! answer.
//! Stands on: `sv_reach`, `sv_text`, `sqlite_items`.
//! Read first: `specs/Sights.antt`.
#![tactic(auto)]

mod sights;

pub use sights::each_sight;
