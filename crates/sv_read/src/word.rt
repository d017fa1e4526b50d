//! Words and punctuation, which leave nothing in the nodes.

ghost use Rattle.std.specs.Prelude.{◌≡◌};
ghost use Rattle.sv_grammar.specs.Grammar.{Tree, pair, unit};
ghost use Rattle.sv_ast.specs.Trees.{optional};

use crate::cursor::Cursor;
use crate::parse::{Begins, Nested, Parse};
use crate::parse_error::ParseError;
use sv_text::Name;

/// A token of the class with this number.
#[derive(Drop)]
pub struct Word<const CLASS: u8>;

impl<R: Nested, const CLASS: u8> Parse<R> for Word<CLASS> {
    ghost use Rattle.std.specs.Prelude.{◌+◌, ◌∷◌, []};
    ghost use Rattle.sv_grammar.specs.Grammar.{unit, word};

    ghost part = { word ((CLASS + 1) ∷ []) };

    ghost tree = { λ _. unit };

    fn parse(_reader: &R, cursor: &mut Cursor<'_>) -> Result<Word<CLASS>, ParseError> {
        cursor.word(CLASS)?;
        Ok(Word)
    }
}

/// What stands behind a word, where both may be left out.
pub fn behind<const CLASS: u8, X>(read: Option<(Word<CLASS>, X)>) -> Option<X>
    ensures { (tree : X → Tree) → optional (λ x. pair unit (tree x)) result ≡ optional (λ p. pair unit (tree p.1)) read }
{
    match read {
        Some((_, x)) => Some(x),
        None => None,
    }
}

/// A token of the class with this number: the name of its text.
#[derive(Drop)]
pub struct Kept<const CLASS: u8>(pub Name);

impl<R: Nested, const CLASS: u8> Parse<R> for Kept<CLASS> {
    ghost use Rattle.std.specs.Prelude.{◌+◌, ◌∷◌, []};
    ghost use Rattle.sv_grammar.specs.Grammar.{name, text};

    ghost part = { text ((CLASS + 1) ∷ []) };

    ghost tree = { λ k. name k.0 };

    fn parse(_reader: &R, cursor: &mut Cursor<'_>) -> Result<Kept<CLASS>, ParseError> {
        Ok(Kept(cursor.kept(CLASS)?))
    }
}

/// A name that is no keyword and not `_`.
impl<R: Nested> Parse<R> for Name {
    ghost use Rattle.sv_grammar.specs.Grammar.{name};
    ghost use Rattle.sv_ast.specs.Syntax.{id};

    ghost part = { id };

    ghost tree = { name };

    fn parse(_reader: &R, cursor: &mut Cursor<'_>) -> Result<Name, ParseError> {
        cursor.id()
    }
}

impl<R: Nested, const CLASS: u8> Begins<R> for Word<CLASS> {
    ghost use Rattle.std.specs.Prelude.{refl};

    fn begins(cursor: &Cursor<'_>) -> bool {
        cursor.sees_word(CLASS)
    }

    ghost filled = { refl };
}

impl<R: Nested, const CLASS: u8> Begins<R> for Kept<CLASS> {
    ghost use Rattle.std.specs.Prelude.{refl};

    fn begins(cursor: &Cursor<'_>) -> bool {
        cursor.sees_word(CLASS)
    }

    ghost filled = { refl };
}

impl<R: Nested> Begins<R> for Name {
    ghost use Rattle.std.specs.Prelude.{refl};

    fn begins(cursor: &Cursor<'_>) -> bool {
        cursor.sees_id()
    }

    ghost filled = { refl };
}
