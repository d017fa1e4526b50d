//! What is known at a node, in enums.

/// What was entered last of functions, constructors and modifiers.
#[derive(Clone, Copy, Debug, PartialEq, Eq)]
pub enum Owner {
    /// A function, also one without a name; or nothing yet.
    Function,
    /// A constructor.
    Constructor,
    /// A modifier.
    Modifier,
}

/// What annotations stand before.
#[derive(Clone, Copy, Debug, PartialEq, Eq)]
pub enum Notes {
    /// A contract.
    Contract,
    /// A loop.
    Loop,
    /// A function, also one without a name.
    Function,
    /// A constructor.
    Constructor,
}

/// Whether an annotation is around.
#[derive(Clone, Copy, Debug, PartialEq, Eq)]
pub enum Inside {
    /// None.
    Code,
    /// A postcondition.
    Postcondition,
    /// Another annotation.
    Another,
}

/// How many `_` stood in a modifier.
#[derive(Clone, Copy, Debug, PartialEq, Eq)]
pub enum Rests {
    None,
    One,
    Several,
}
