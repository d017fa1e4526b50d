//! The types of parameters and results, for each declaration of a text.
//!
//! Promises: `same_params`, `same_results` and `same_locations` answer exactly whether two of these agree.
//! Stands on: `sv_text_type`, `sqlite_items`, and on `sv_ast` for the words of locations.
//! Read first: `typed.rt`, then `specs/TypedLists.antt`.
#![tactic(auto)]

mod typed;

pub use typed::{
    TypedCallable, TypedContract, TypedMember, same_locations, same_params, same_results,
};
