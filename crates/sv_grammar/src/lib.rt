//! The theory of grammars: derivations, viable prefixes, and predictive reading.
//!
//! Promises: no code. Where a grammar's tables pass a computed test, what is read by them, a token
//! ahead, is the longest viable prefix, and a list of tokens has at most one tree.
//! Stands on: std alone.
//! Read first: `specs/Grammar.antt`.
#![tactic(auto)]
