//! Reading the text of a log.

mod brackets;
mod cut;
mod entry;
pub mod log;
mod node;
mod numbers;
mod sort;
mod stop;
mod words;
