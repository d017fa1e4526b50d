//! What the definitions of storage trees and of memory mean, as laws.
//!
//! Promises: what was written is read, other paths stay, a write keeps the type, a sum after a write, a copy reads as its source.
//! Stands on: `sv_type`.
//! Read first: `specs/TreeLaws.antt`.
#![tactic(auto)]

pub mod laws;
