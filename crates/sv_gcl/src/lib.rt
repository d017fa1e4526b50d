//! Guarded commands over terms: what a function is lowered to.
//!
//! Promises: runs worked out by hand come to what they should, and a run leaves alone what its command neither sets nor forgets.
//! Stands on: `sv_term`, `sv_core`, `sv_text`, `sqlite_items`.
//! Read first: `specs/Commands.antt`, `specs/FormedCommands.antt`.
#![tactic(auto)]

mod command;
pub mod laws;
mod lowered;

pub use command::Cmd;
pub use lowered::{GVar, Lowered};
