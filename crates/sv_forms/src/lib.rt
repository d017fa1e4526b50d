//! Whoever asks the first group of rules of a text, and the answer of the group.
//!
//! Promises: `forms` answers the broken rule of the group that counts, at its node, and none exactly where none is broken. Want
//! of memory is the only other answer.
//! Stands on: `sv_form_book`, `sv_form_bases`, `sv_form_sites`, `sv_form_rules`, `sv_form_marks`, `sv_annotation`, `sv_visit_unit` and those below.
//! Read first: `specs/FormRules.antt` of `sv_form_book`.
#![tactic(auto)]

mod around;
mod asker;
mod decls;
mod expressions;
mod functions;
mod simples;
mod stmts;
mod units;

pub use units::forms;
