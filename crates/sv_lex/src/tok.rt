/// What a token is.
#[derive(Clone, Copy, Debug, PartialEq, Eq)]
pub enum Tok {
    /// A name or a keyword.
    Word,
    /// A decimal number.
    Number,
    /// A hexadecimal number.
    Hex,
    /// A string, with its quotes.
    Str,
    /// Punctuation.
    Punct,
    /// The word `pragma` and all bytes up to its `;`.
    Pragma,
    /// The beginning of an annotation line; its text is the annotation's word.
    Note,
    /// The end of an annotation line; its text is empty.
    End,
}
