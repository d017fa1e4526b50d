//! Which type a piece of a type stands for: by its word, or by what a name means to the contract that writes it.
//!
//! Promises: `piece_type` gives the type exactly where the piece stands for one by itself: an elementary type by its name, an address, a string, a declared type by what the contract sees. Want of memory is the only other answer.
//! Stands on: `sv_member`, `sv_decl`, `sv_text_type`, `sv_text`, `sqlite_items`.
//! Read first: `specs/DeclaredTypes.antt`, `specs/ElementaryTypes.antt`.
#![tactic(auto)]

mod count;
mod declared;
mod elementary;
mod piece;

pub use piece::piece_type;
