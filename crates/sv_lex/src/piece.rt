//! The pieces of a text: separators, comments and tokens.

ghost use Rattle.std.specs.Prelude.{◌≡◌, ◌≢◌, ◌++◌, ◌≤◌, [], codes, drop, length, take};
ghost use Rattle.sv_lex.specs.Bytes.{begins_word, is_digit, is_quote, DoesBegin};
ghost use Rattle.sv_lex.specs.Pieces as g;
ghost use Rattle.sv_lex.specs.TextReading.{ReadsPiece, StartsCut, BeginsNothing, piece_of};

use crate::bytes::{Class, split_run};
use crate::comment::split_at_end;
use crate::fault::Flaw;
use crate::mark::mark_len;
use crate::number::{decimal_len, hexadecimal_len};
use crate::string::{StringEnd, string_end};
use crate::tok::Tok;

/// A piece of a text.
#[derive(Clone, Copy)]
pub enum Shape<'a> {
    /// A separator.
    Space(u8),
    /// `//` and these bytes.
    LineComment(&'a [u8]),
    /// `/*`, these bytes and `*/`.
    BlockComment(&'a [u8]),
    /// A token.
    Token(Tok, &'a [u8]),
}

/// The piece that a text begins with, and what follows it.
#[derive(Clone, Copy)]
pub struct Cut<'a> {
    pub shape: Shape<'a>,
    pub rest: &'a [u8],
}

/// Why a text begins with no piece, and how many bytes behind its beginning.
#[derive(Clone, Copy, Debug, PartialEq, Eq)]
pub struct Stuck {
    pub flaw: Flaw,
    pub behind: usize,
}

impl Stuck {
    /// At the beginning of the text.
    fn here(flaw: Flaw) -> Stuck
        ensures flaw { result.flaw ≡ flaw }
        ensures here { result.behind ≡ 0 }
    {
        Stuck { flaw, behind: 0 }
    }
}

/// A token of this length.
fn token(kind: Tok, text: &[u8], len: usize) -> Cut<'_>
    requires { len ≤ length text.now }
    ensures rest { result.rest.now ≡ drop len text.now }
    ensures shape { piece_of result.shape ≡ g.token kind (take len text.now) }
{
    let (bytes, rest) = text.split_at(len);
    Cut {
        shape: Shape::Token(kind, bytes),
        rest,
    }
}

/// A word, or a pragma, which goes up to its `;`.
fn read_word(text: &[u8]) -> Result<Cut<'_>, Stuck>
    requires { DoesBegin begins_word text.now }
    ensures { ReadsPiece text.now result }
{
    let (word, rest) = split_run(Class::InWord, text);
    if word != b"pragma".as_slice() {
        return Ok(Cut {
            shape: Shape::Token(Tok::Word, word),
            rest,
        });
    }
    let (body, after) = split_run(Class::InPragma, rest);
    if after.is_empty() {
        return Err(Stuck::here(Flaw::Unclosed));
    }
    Ok(token(Tok::Pragma, text, word.len() + body.len()))
}

/// A number, which no word character may follow.
fn read_number(text: &[u8]) -> Result<Cut<'_>, Stuck>
    requires { DoesBegin is_digit text.now }
    ensures { ReadsPiece text.now result }
{
    let (kind, len) = match hexadecimal_len(text) {
        0 => (Tok::Number, decimal_len(text)),
        len => (Tok::Hex, len),
    };
    let cut = token(kind, text, len);
    match cut.rest.first() {
        Some(byte) if Class::InWord.has(*byte) => Err(Stuck {
            flaw: Flaw::Char,
            behind: len,
        }),
        _ => Ok(cut),
    }
}

/// A string.
fn read_string(text: &[u8]) -> Result<Cut<'_>, Stuck>
    requires { DoesBegin is_quote text.now }
    ensures { ReadsPiece text.now result }
{
    match string_end(text) {
        StringEnd::Whole(len) => Ok(token(Tok::Str, text, len)),
        StringEnd::Broken(at) => match text.get(at) {
            Some(byte) if *byte != b'\n' => Err(Stuck::here(Flaw::Char)),
            _ => Err(Stuck::here(Flaw::Unclosed)),
        },
    }
}

/// A comment that begins with `/*`; the text is what follows that.
fn read_block(text: &[u8]) -> Result<Cut<'_>, Stuck>
    ensures { ReadsPiece (codes "/*" ++ text.now) result }
{
    match split_at_end(text) {
        Some((body, rest)) => Ok(Cut {
            shape: Shape::BlockComment(body),
            rest,
        }),
        None => Err(Stuck::here(Flaw::Unclosed)),
    }
}

/// A comment that begins with `//`; the text is what follows that.
fn read_line(text: &[u8]) -> Cut<'_>
    ensures { StartsCut (codes "//" ++ text.now) result }
{
    let (body, rest) = split_run(Class::InLine, text);
    Cut {
        shape: Shape::LineComment(body),
        rest,
    }
}

/// A comment or a punctuation.
fn read_mark(text: &[u8]) -> Result<Cut<'_>, Stuck>
    requires { BeginsNothing text.now }
    ensures { ReadsPiece text.now result }
{
    if let Some(body) = text.strip_prefix(b"//") {
        return Ok(read_line(body));
    }
    if let Some(body) = text.strip_prefix(b"/*") {
        return read_block(body);
    }
    match mark_len(text) {
        0 => Err(Stuck::here(Flaw::Char)),
        len => Ok(token(Tok::Punct, text, len)),
    }
}

/// The piece that a text begins with.
pub fn read_piece(text: &[u8]) -> Result<Cut<'_>, Stuck>
    requires { text.now ≢ [] }
    ensures { ReadsPiece text.now result }
{
    let first = text[0];
    if Class::Separator.has(first) {
        return Ok(Cut {
            shape: Shape::Space(first),
            rest: &text[1..],
        });
    }
    if Class::Digit.has(first) {
        read_number(text)
    } else if Class::WordStart.has(first) {
        read_word(text)
    } else if matches!(first, b'"' | b'\'') {
        read_string(text)
    } else {
        read_mark(text)
    }
}
