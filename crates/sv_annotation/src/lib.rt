//! The language of annotations: which expressions may stand in them.
//!
//! Promises: `fits` says exactly whether an expression is one of annotations, `calls_old` whether it is the call of an `old`
//! function. No call takes memory.
//! Stands on: `sv_form_rules`, `sv_plain`, `sv_ast`, `sv_text`.
//! Read first: `specs/AnnotationLanguage.antt`.
#![tactic(auto)]

mod language;
mod openings;

pub use language::fits;
pub use openings::{Opening, calls_old};
