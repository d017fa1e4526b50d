//! What stands beside each term of a room: how its linear form is made, and whether it is plain.
//!
//! Promises: `beside_all` takes all memory and puts both beside each term that is there; `put_next` puts both beside the next term, and takes no memory.
//! Stands on: `sv_term_forms` (forms), `sv_plain_terms` (flags), `sv_term_room` (terms by number), `sv_text`; on `sv_log` for what a form is.
//! Read first: `specs/BesideTerms.antt`.
#![tactic(auto)]

mod all;
mod put;
mod told;

pub use all::{Beside, beside_all};
pub use put::put_next;
