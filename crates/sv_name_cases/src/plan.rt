use sv_decl::{Callable, Standing, Word};

/// A piece of a type.
#[derive(Clone, Copy)]
pub enum Piece<'a> {
    Named(&'a str),
    Member(&'a str, &'a str),
    Mapping,
    Dynamic,
}

/// The name of a base, and perhaps how many arguments it has and at which byte.
pub type Use<'a> = (&'a str, Option<(usize, u32)>);

/// Which declaration it is.
#[derive(Clone, Copy)]
pub enum Part<'a> {
    /// With its words, and the bytes of its value.
    Variable(&'a [Word], u32, u32),
    /// With a parameter of a type of these pieces, if there are any; the names behind it; whether it has a body.
    Callable(Callable, &'a [Piece<'a>], &'a [Use<'a>], bool),
    /// With a field of a type of these pieces.
    Struct(&'a [Piece<'a>]),
}

/// A contract.
#[derive(Clone, Copy)]
pub struct Plan<'a> {
    pub name: &'a str,
    pub standing: Standing,
    pub bases: &'a [Use<'a>],
    pub parts: &'a [(&'a str, Part<'a>)],
}

/// A contract without bases and declarations.
pub const CONTRACT: Plan<'static> = Plan {
    name: "C",
    standing: Standing::Concrete,
    bases: &[],
    parts: &[],
};
