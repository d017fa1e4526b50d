//! Targets.

use sqlite_items::Items;
use sv_text::Name;

/// What a name means. A number counts the declarations of one kind in the whole text from 0, in order of the text; that of a local counts the locals of one
/// function, constructor or modifier.
#[derive(Clone, Copy, Debug, PartialEq, Eq)]
pub enum Target {
    Local(u32),
    /// A state variable or a constant.
    Var(u32),
    Func(u32),
    Modifier(u32),
    /// A struct or an enum.
    Named(u32),
    Contract(u32),
    Event(u32),
    Error(u32),
    /// What is there without a declaration, as `msg`.
    Builtin(Name),
}

/// For each declaration of a text what its name means. What can't be named, as a constructor, has none.
#[derive(Drop)]
pub struct Targets {
    /// In the contracts, by their numbers.
    pub inside: Items<Items<Option<Target>>>,
    /// Outside of all contracts.
    pub outside: Items<Option<Target>>,
}

/// Declarations that are counted together.
#[derive(Clone, Copy, Debug, PartialEq, Eq)]
pub(crate) enum Counted {
    Variables,
    Functions,
    Modifiers,
    StructsAndEnums,
    Events,
    Errors,
}
