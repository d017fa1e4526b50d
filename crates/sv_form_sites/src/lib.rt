//! What the first group of rules asks of statements and declarations.
//!
//! Promises: each test says exactly what its definition in `sv_form_book` says. No call takes memory.
//! Stands on: `sv_form_book`, `sv_form_rules`, `sv_ast`, `sv_text`, `sqlite_items`.
//! Read first: `specs/FormRules.antt` and `specs/FormKnown.antt` of `sv_form_book`.
#![tactic(auto)]

mod contracts;
mod heads;
mod notes;
mod statements;

pub use contracts::{any_whole, bases_of, is_interface, name_of};
pub use heads::{has_virtual_twice, head_word, var_word};
pub use notes::{has_sender, is_another, note_inside, takes};
pub use statements::{is_jump, is_loop, is_rest, is_unchecked};
