//! Overrides and overloads along the lines of contracts.
//!
//! Promises: `breaks_override` and `breaks_overload` answer the rules `Override` and `Overload` exactly, for one declaration of the table, by the lines of all contracts and the types of parameters and results. No call takes memory.
//! Stands on: `sv_rival`, `sv_typed`, `sv_decl`, `sqlite_items`.
//! Read first: `specs/Overrides.antt`, `specs/Overloads.antt`.
#![tactic(auto)]

mod overload;
mod overriding;

pub use overload::breaks_overload;
pub use overriding::breaks_override;
