//! What each name of a text means, and the rule Unknown of names.
//!
//! Promises: `names_of` answers the node with an unknown name that counts, and none exactly where no name is unknown, and what each name means, by its
//! bytes, in order of the walk; want of memory is the only other answer.
//! Stands on: `sv_name_book`, `sv_naming`, `sv_visit_unit` and those below.
//! Read first: `specs/NameBook.antt` of `sv_name_book`.
#![tactic(auto)]

mod asker;
mod decls;
mod expressions;
mod simples;
mod stmts;
mod units;

pub use units::{NamesFound, names_of};
