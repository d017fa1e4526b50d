use sv_text::Name;

/// What a name stands for. The numbers count the declarations of their kind in the text from 0, in order of the text.
#[derive(Clone, Copy, Debug, PartialEq, Eq)]
pub enum Target {
    /// A local of the function, modifier or constructor that the name stands in.
    Local(u32),
    /// A variable of a contract.
    Var(u32),
    /// A function.
    Func(u32),
    /// A modifier.
    Modifier(u32),
    /// A struct or an enum, which are counted together.
    Named(u32),
    /// A contract or an interface.
    Contract(u32),
    /// An event.
    Event(u32),
    /// An error.
    Error(u32),
    /// A name of the language itself.
    Builtin(Name),
}
