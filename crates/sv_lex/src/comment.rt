//! Block comments.

ghost use Rattle.std.specs.Prelude.{◌≡◌, ◌++◌, IfSome, IfNone, codes};
ghost use Rattle.sv_lex.specs.Pieces.{IsOpen};

/// What stands before the first `*/` of the text, and what follows it.
pub fn split_at_end(text: &[u8]) -> Option<(&[u8], &[u8])>
    ensures some { IfSome result (λ parts. (text.now ≡ parts.0.now ++ codes "*/" ++ parts.1.now) × IsOpen parts.0.now) }
    ensures none { IfNone result (IsOpen text.now) }
{
    for i in 0..text.len() {
        if let Some(rest) = text[i..].strip_prefix(b"*/") {
            return Some((&text[..i], rest));
        }
    }
    None
}
