//! Whether multipliers, a sum of two rows and a row divided by a number are what an entry of a log claims.
//!
//! Promises: each call is true exactly where they are. No call takes memory.
//! Stands on: `sv_num`, `sv_row`, and on `sv_log` for what a combination and a division are.
//! Read first: `specs/RowSums.antt`.
#![tactic(auto)]

mod combined;
mod divided;
mod opposite;
mod sum;

pub use combined::is_combined;
pub use divided::is_divided;
pub use opposite::cancel;
pub use sum::is_sum;
