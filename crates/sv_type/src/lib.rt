//! The types of a contract, each with a number.
//!
//! Promises: which types stand in a type, and whether a type may be copied, deleted or popped as a whole.
//! Stands on: `sqlite_items`.
//! Read first: `specs/TypeParts.antt`.
#![tactic(auto)]

mod info;
mod types;

pub use info::{TypeInfo, TypeNo};
pub use types::Types;
