//! Contracts in which every name, override, type and conversion is resolved, and the labels of their checks.
//!
//! Promises: the labels of a function in their order, the texts of labels and of functions, and copies that equal what they copy.
//! Stands on: `sv_rule`, `sv_text`, `sv_type`, `sqlite_items`.
//! Read first: `specs/PlainCode.antt`, `specs/PlainCore.antt`, `specs/Formed.antt`, `specs/Checks.antt`.
#![tactic(auto)]

mod contract;
mod copies;
mod core_copies;
mod expr;
mod expr_checks;
mod label;
mod label_list;
pub mod laws;
mod rule;
mod stat;
mod stat_checks;
mod stat_copies;
mod tally;
mod target;
mod texts;

pub use contract::{
    BaseArgs, Core, CtorInfo, FuncInfo, LocalInfo, ModInfo, ModUse, VarInfo, VarKind,
};
pub use copies::copy_expr;
pub use core_copies::copy_core;
pub use expr::{CExpr, CKind, EnvName, Loc, Op, OutKind};
pub use label::{FuncId, Label, Site};
pub use label_list::labels;
pub use rule::{Refusal, RuleFault};
pub use stat::{Arm, Stat, StatKind};
pub use stat_copies::copy_stat;
pub use sv_rule::Rule;
pub use target::Target;
pub use texts::{compare, func_text, label_text};
