//! Documentation comments and the annotation lines in them.

ghost use Rattle.std.specs.Option.{option_copied};
ghost use Rattle.std.specs.Prelude.{◌↔◌, ℕ, List, IfSome, IfNone, IsTrue, Contains};
ghost use Rattle.sv_lex.specs.Annotations.{IsLeadOf, OpensAs, DocumentsAs, SplitsLine};
ghost use Rattle.sv_lex.specs.Pieces.{Fits};
ghost use Rattle.sv_lex.specs.TextReading.{piece_of};
ghost use Rattle.sv_lex.specs.Tokens as g;
ghost use Rattle.sv_lex.specs.Tokens.{Opens, annotation_words};

use crate::bytes::{Class, split_run};
use crate::left_out::is_among;
use crate::piece::Shape;

/// The words of annotations.
const ANNOTATION_WORDS: [&[u8]; 3] = [b"invariant", b"precondition", b"postcondition"];

/// The parts of an annotation line.
#[derive(Clone, Copy)]
pub struct Opening<'a> {
    /// How many bytes stand before the word.
    pub before: usize,
    /// What the annotation is.
    pub word: &'a [u8],
    /// What follows the word and a blank.
    pub content: &'a [u8],
}

/// The documentation that a comment is.
#[derive(Clone, Copy)]
pub struct Documentation<'a> {
    /// Its text, which begins with the comment's fourth byte.
    pub text: &'a [u8],
    /// Whether stars may stand at the beginning of its lines.
    pub is_starred: bool,
}

/// The documentation that a piece is.
pub fn documentation_of<'a>(shape: &Shape<'a>) -> Option<Documentation<'a>>
    requires { (rest : List ℕ) × Fits (piece_of shape.now) rest }
    ensures { DocumentsAs (piece_of shape.now) result }
{
    match shape {
        Shape::LineComment(body) => match body.strip_prefix(b"/") {
            Some(text) if !text.starts_with(b"/") => Some(Documentation {
                text,
                is_starred: false,
            }),
            _ => None,
        },
        Shape::BlockComment(body) => {
            let text = body.strip_prefix(b"*")?;
            Some(Documentation {
                text,
                is_starred: true,
            })
        }
        _ => None,
    }
}

/// The first line of a text, and what follows its newline.
pub fn split_line(text: &[u8]) -> (&[u8], Option<&[u8]>)
    ensures { SplitsLine text.now result.0.now (option_copied result.1) }
{
    let (line, rest) = split_run(Class::InLine, text);
    (line, rest.get(1..))
}

/// Whether the word is that of an annotation.
fn is_annotation_word(word: &[u8]) -> bool
    ensures { IsTrue result ↔ Contains annotation_words word.now }
{
    is_among(&ANNOTATION_WORDS, word)
}

/// What follows the blanks, and the stars and blanks, at the beginning of a documentation line.
fn skip_lead(is_starred: bool, line: &[u8]) -> &[u8]
    ensures { IsLeadOf is_starred line.now result.now }
{
    let (_, more) = split_run(Class::Blank, line);
    if !is_starred {
        return more;
    }
    let (_, more) = split_run(Class::Star, more);
    split_run(Class::Blank, more).1
}

/// The parts of a documentation line that is an annotation line.
pub fn split_opening<'a>(is_starred: bool, line: &'a [u8]) -> Option<Opening<'a>>
    ensures some { IfSome result (OpensAs is_starred line.now) }
    ensures none { IfNone result ((o : g.Opening) → Opens is_starred line.now o → ⊥) }
{
    let more = skip_lead(is_starred, line);
    let more = more.strip_prefix(b"@notice")?;
    let (between, more) = split_run(Class::Blank, more);
    let before = line.len() - more.len();
    let (word, more) = split_run(Class::InWord, more);
    let (blank, content) = more.split_first()?;
    if between.is_empty() || !is_annotation_word(word) || !Class::Blank.has(*blank) {
        return None;
    }
    Some(Opening {
        before,
        word,
        content,
    })
}
