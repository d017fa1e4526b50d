//! The first group of rules, 1 to 10: what they know at a node, and which of them it breaks.
//!
//! Promises: each test says exactly what its definition says. No call takes memory.
//! Stands on: `sv_annotation`, `sv_form_rules`, `sv_rule`, `sv_visit`, `sv_book`, `sv_plain`, `sv_ast`, `sv_text`.
//! Read first: `specs/FormRules.antt`, `specs/FormKnown.antt`.
#![tactic(auto)]

mod known;

pub use known::{Inside, Notes, Owner, Rests};
