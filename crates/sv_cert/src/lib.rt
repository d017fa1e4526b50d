//! Logs as data, the format of their text, and the types of answers that hold logs.
//!
//! Promises: a log is written as its text, and a text read as its log (`log_text`, `read_log`); a text has one log, or one first faulty line (`laws`).
//! Stands on: `sv_log` (what a log is), `sv_term` (sorts), `sv_num`, `sv_core` (labels), `sv_text` (want of memory), `sqlite_items`, `thiserror`.
//! Read first: `specs/LogText.antt`.
#![tactic(auto)]

mod excess;
mod found;
mod kind;
pub mod laws;
mod log;
mod log_fault;
mod part;
mod read;
mod recheck;
mod sort;
mod text;
mod text_sort;
mod verdict;

pub use excess::Excess;
pub use found::{Found, Valuation};
pub use kind::{NodeKind, Slot};
pub use log::{Entry, Log, LogNode, Row};
pub use log_fault::LogFault;
pub use part::Part;
pub use read::log::read_log;
pub use recheck::{Given, Recheck, Rechecks};
pub use sort::LogSort;
pub use text::log_text;
pub use verdict::{Shown, Verdict, Verdicts};
