use sv_text::{Place, Span};

/// Where a node lies: its bytes, and the place of the first.
#[derive(Clone, Copy, Debug, PartialEq, Eq)]
pub struct Spot {
    pub span: Span,
    pub place: Place,
}
