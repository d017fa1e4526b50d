//! What is known of names while a text is read from its beginning to its end, and what each name in it means.
//!
//! Promises: each call does exactly what its definition says; a name that is used is looked up among what is around it there, and what it means is noted with
//! the bytes of the use. Want of memory is the only other answer.
//! Stands on: `sv_seen`, `sv_target`, `sv_local_names`, `sv_decl`, `sv_text`, `sqlite_items`.
//! Read first: `specs/NamesKnown.antt`.
#![tactic(auto)]

mod naming;
mod scopes;
mod uses;

pub use naming::{Bind, Naming};
