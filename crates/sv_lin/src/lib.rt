//! Elimination over rows: a contradiction by entries that are accepted, or the nearest point, or what stopped it; with the definitions of these answers and their renumbering for a longer log.
//!
//! Promises: `eliminate` gives an answer only where its cause holds; `combine_rows` gives what two rows make by cancelling their greatest column; the laws of `laws`.
//! Stands on: `sv_log` (rows, entries, acceptance), `sv_cert` (entries as data), `sv_point` (the nearest point), `sv_row` (sums of rows), `sv_fraction`, `sv_num`, `sv_text` (want of memory).
//! Read first: `specs/Eliminations.antt`, then `specs/EliminationAnswers.antt`.
#![tactic(auto)]

mod answer;
mod columns;
mod elimination;
pub mod laws;
mod made;
mod place;
mod point;
mod rounds;
mod sides;
mod step;
mod work;

pub use answer::Eliminated;
pub use elimination::eliminate;
pub use step::{Combination, combine_rows};
