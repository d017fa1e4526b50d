//! What the program writes: the report of a contract, or the error line of a text that is refused; and how the program ends.
//!
//! Promises: `report` answers the lines of a contract's verdicts and its last line, `error_line` the line of a refusal, `all_verified` whether every verdict is verified, `status` the exit status of
//! each way to end; each exactly as docs/report.md says.
//! Stands on: `sv_first_judge` for verdicts, `sv_first_form` for contracts, and `sv_text`.
//! Read first: `specs/Report.antt`, then `specs/Refusals.antt` and `specs/Status.antt`.
#![tactic(auto)]

mod ended;
mod lines;
mod refusal;

pub use ended::Ended;
pub use lines::{all_verified, report};
pub use refusal::{Refusal, error_line};
