//! Judging a contract of the first form, and what such a contract does in every history.
//!
//! Promises: `judge::judge` answers the right verdict for the constructor, for each function and for ether that arrives by force, and no
//! number leaves `i128`. `laws::verified_is_safe`: a contract all of whose functions are verified is safe in every history.
//! `history::marks` runs one history, exactly by the definition.
//! Stands on: `sv_first_form` for contracts, `sv_num` for exact numbers, `sv_text` for want of memory, `sqlite_items` for lists that
//! contracts see as lists.
//! Read first: `specs/History.antt`, `specs/Judging.antt` and `specs/Laws.antt`, then `src/judge.rt`.
#![tactic(auto)]

mod exact;
pub mod history;
pub mod judge;
pub mod laws;
mod row;
mod values;
mod verdict;
mod wide;

pub use verdict::Verdict;
pub use wide::Wide;
