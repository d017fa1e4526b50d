//! How the linear form of a term is spread over its columns, by numbers of terms and weights, without memory.
//!
//! Promises: `settle` leaves at each column its number in the form, and gives the constant, both but for multiples of 2^128; `clear` takes the weights away;
//! `join` is the sum, the difference or the multiple, where it is an `i128`.
//! Stands on: `sv_num` and `sv_log` for numbers.
//! Read first: `specs/TermWeights.antt`.
#![tactic(auto)]

mod joining;
mod node;
mod weights;

pub use joining::join;
pub use node::{Join, Linear};
pub use weights::{clear, settle};
