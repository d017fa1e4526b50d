//! Which contract each base names, and when a contract or a base breaks the rule of lines.
//!
//! Promises: `bases_of` gives for each contract the numbers of its bases, as `sv_lines` reads them; `stands_late` and `breaks_line` answer the rule `Line` exactly.
//! Stands on: `sv_decl`, `sv_text`, `sqlite_items`.
//! Read first: `specs/BaseNumbers.antt`.
#![tactic(auto)]

mod line;
mod numbers;

pub use line::{breaks_line, stands_late};
pub use numbers::bases_of;
