//! The rules of the first group that look at one node: literals, `++` and `--`, powers, and the words of declarations.
//!
//! Promises: each test says exactly what its definition says. No call takes memory.
//! Stands on: `sv_literal`, `sv_visit`, `sv_plain`, `sv_ast`, `sv_text`.
//! Read first: `specs/NodeRules.antt`, `specs/HeadWords.antt`.
#![tactic(auto)]

mod nodes;
mod texts;
mod words;

pub use nodes::{assigns_inside, is_address_literal, is_wide, raises_others, steps};
pub use texts::text_of;
pub use words::{Word, Words};
