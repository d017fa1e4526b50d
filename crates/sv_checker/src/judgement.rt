use sv_allowed::Why;

/// What a checker says of an entry.
#[derive(Clone, Copy, Debug, PartialEq, Eq)]
pub enum Step {
    Accepted,
    /// The first cause against it.
    Rejected(Why),
}
