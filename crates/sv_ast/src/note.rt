use crate::expr::Expr;
use sv_text::{Name, Place, Span};

/// An annotation, as `@notice invariant a == b`, with its word and its expression.
#[derive(Drop)]
pub struct Note {
    pub word: Name,
    pub expr: Expr,
    pub span: Span,
    pub place: Place,
}
