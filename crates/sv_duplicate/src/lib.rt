//! Names that stand twice in one scope, as far as the table of declarations tells.
//!
//! Promises: each answer to the rule `Duplicate` is exact: of a declaration of a contract, of a contract and of what stands outside of contracts, of a member of each. No call takes memory.
//! Stands on: `sv_rival`, `sv_member`, `sv_typed`, `sv_decl`, `sqlite_items`.
//! Read first: `specs/Duplicates.antt`, `specs/DuplicateMembers.antt`.
#![tactic(auto)]

mod contract;
mod line;
mod member;
mod outside;

pub use contract::breaks_duplicate;
pub use member::repeats_member;
pub use outside::{repeats_contract, repeats_outside};
