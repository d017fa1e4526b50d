use crate::tok::Tok;
use sv_text::{Place, Span};

/// A token: its kind, its text, the offsets of its first byte and behind its last, and the place of its first byte.
#[derive(Clone, Copy, Debug)]
pub struct Token<'a> {
    pub kind: Tok,
    pub text: &'a [u8],
    pub span: Span,
    pub place: Place,
}
