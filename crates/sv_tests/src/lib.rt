//! Tests of crates whose own proof is dear: a crate with tests is proved twice, so theirs stand here.
//!
//! Promises: nothing; each expected value is worked by hand.
//! Stands on: `sv_lex`, `sv_io`, `sv_first_form`, `sv_first_judge`, `sv_text`.
#![tactic(auto)]

#[cfg(test)]
mod form;
#[cfg(test)]
mod history;
#[cfg(test)]
mod io;
#[cfg(test)]
mod lex;
#[cfg(test)]
mod recording;
#[cfg(test)]
mod wide;
