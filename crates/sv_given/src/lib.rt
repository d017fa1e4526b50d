//! Whether a log allows a fact by its rule, or a row as the linear form of a fact, over terms and items by number.
//!
//! Promises: each call answers `None` exactly where the entry is allowed, and else the first cause against it. No call takes memory.
//! Stands on: `sv_allowed` for what it means to judge an entry, `sv_by_rule` (rules), `sv_term_forms` (forms), `sv_plain_terms`, `sv_term_room`, `sv_branch`.
//! Read first: `specs/FactJudging.antt`.
#![tactic(auto)]

mod fact;
mod form;

pub use fact::by_its_rule;
pub use form::as_its_form;
