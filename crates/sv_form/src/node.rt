/// How the forms of two terms make that of a third. A multiple is one of the first.
#[derive(Clone, Copy)]
pub enum Join {
    Sum,
    Difference,
    Multiple(i128),
}

/// How the form of a term is made.
#[derive(Clone, Copy)]
pub enum Linear {
    Literal(i128),
    /// A literal that is no `i128`.
    Wide,
    Joined(Join, usize, usize),
    Column,
    AtMost(usize, usize),
    Equal(usize, usize),
    /// The form, or one on the way, has a number that is no `i128`.
    Outside,
}
