//! Arguments for constructors of bases along the lines of contracts.
//!
//! Promises: `args_break` answers the rule `BaseArgs` exactly for arguments: they are of a wrong number, or given twice; `misses_args` answers it exactly for a contract: arguments are missing.
//! Stands on: `sv_decl`, `sv_plain`, `sv_text`, `sqlite_items`.
//! Read first: `specs/BaseArguments.antt`.
#![tactic(auto)]

mod given;
mod rule;

pub use given::UsePlace;
pub use rule::{args_break, misses_args};
