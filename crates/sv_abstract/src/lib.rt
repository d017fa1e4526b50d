//! When a function stays without a body in a contract that can be made.
//!
//! Promises: `lacks_body` answers the rule `Abstract` exactly, for one declaration of the table, by the lines of all contracts.
//! Stands on: `sv_decl`, `sqlite_items`.
//! Read first: `specs/BodilessFunctions.antt`.
#![tactic(auto)]

mod bodiless;
mod by_name;

pub use bodiless::lacks_body;
