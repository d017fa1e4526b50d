//! What a name means at a place.
//!
//! Promises: `seen` answers the local, the declaration or the built-in thing that a name means at a place, and none exactly where the name is unknown there;
//! want of memory is the only other answer. `fits` says whether that is of the kind that is wanted.
//! Stands on: `sv_target`, `sv_local_names`, `sv_member`, `sv_decl`, `sv_text`, `sqlite_items`.
//! Read first: `specs/NameMeanings.antt`.
#![tactic(auto)]

mod builtins;
mod declared;
mod outlook;
mod wanted;

pub use declared::{in_contract, in_text};
pub use outlook::{Outlook, Within, seen};
pub use wanted::{Wanted, fits, named};
