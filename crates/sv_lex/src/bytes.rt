//! Classes of bytes, and the bytes of a class that a text begins with.

ghost use Rattle.std.specs.Prelude.{◌≡◌, ◌++◌, ◌<◌, ◌≤◌, false, length, take, slice_index};
ghost use Rattle.std.specs.List.{AllPass};
ghost use Rattle.sv_lex.specs.Bytes.{DoesNotBegin};
ghost use Rattle.sv_lex.specs.ByteTests.{is_of};

/// What a byte may be.
#[derive(Clone, Copy)]
pub enum Class {
    /// A decimal digit.
    Digit,
    /// A hexadecimal digit.
    HexDigit,
    /// The first byte of a word.
    WordStart,
    /// A byte of a word or a number.
    InWord,
    /// A space or a tab.
    Blank,
    /// A star.
    Star,
    /// What separates tokens.
    Separator,
    /// Any byte but a newline.
    InLine,
    /// Any byte but a semicolon.
    InPragma,
}

impl Class {
    /// Whether the byte is of the class.
    pub fn has(self, byte: u8) -> bool
        ensures { result ≡ is_of self byte }
    {
        match self {
            Class::Digit => byte.is_ascii_digit(),
            Class::HexDigit => byte.is_ascii_hexdigit(),
            Class::WordStart => byte.is_ascii_alphabetic() || byte == b'$' || byte == b'_',
            Class::InWord => byte.is_ascii_alphanumeric() || byte == b'$' || byte == b'_',
            Class::Blank => byte == b' ' || byte == b'\t',
            Class::Star => byte == b'*',
            Class::Separator => matches!(byte, b' ' | b'\t' | b'\r' | b'\n'),
            Class::InLine => byte != b'\n',
            Class::InPragma => byte != b';',
        }
    }
}

/// How many bytes of the class the text begins with.
pub fn run_len(class: Class, text: &[u8]) -> usize
    ensures within { result ≤ length text.now }
    ensures run { AllPass (is_of class) (take result text.now) }
    ensures stop { result < length text.now → is_of class (slice_index text.now result) ≡ false }
{
    for (i, byte) in text.iter().enumerate() {
        if !class.has(*byte) {
            return i;
        }
    }
    text.len()
}

/// The bytes of the class that the text begins with, and the rest.
pub fn split_run<'a>(class: Class, text: &'a [u8]) -> (&'a [u8], &'a [u8])
    ensures spelled { text.now ≡ result.0.now ++ result.1.now }
    ensures run { AllPass (is_of class) result.0.now }
    ensures stop { DoesNotBegin (is_of class) result.1.now }
{
    text.split_at(run_len(class, text))
}
