//! Parts that are made of parts.

ghost use Rattle.std.specs.Prelude.{◌≡◌, IfOk};
ghost use Rattle.sv_grammar.specs.Grammar.{Part, Tree, node, side};
ghost use Rattle.sv_ast.specs.Syntax.{Side, rules};
ghost use Rattle.sv_ast.specs.Trees.{extent};
ghost use Rattle.sv_read.specs.Here.{Here};
ghost use Rattle.sv_read.specs.Nesting.{MayRead, leads};
ghost use Rattle.sv_read.specs.PartReading.{Reads};

use crate::cursor::{Cursor, Extent};
use crate::parse::{Begins, Nested, Parse};
use crate::parse_error::ParseError;
use sqlite_items::{Boxed, Items};
use sv_text::{Place, Span};

/// The one and then the other.
impl<R: Nested, A: Parse<R>, B: Parse<R>> Parse<R> for (A, B) {
    ghost use Rattle.sv_grammar.specs.Grammar.{seq};
    ghost use Rattle.sv_read.specs.PartReading.{pair_tree};

    ghost part = { seq A.part B.part };

    ghost tree = { pair_tree A.tree B.tree };

    fn parse(reader: &R, cursor: &mut Cursor<'_>) -> Result<(A, B), ParseError> {
        let first = A::parse(reader, cursor)?;
        let second = B::parse(reader, cursor)?;
        Ok((first, second))
    }
}

/// Any number of them.
impl<R: Nested, A: Begins<R>> Parse<R> for Items<A> {
    ghost use Rattle.std.specs.Prelude.{map};
    ghost use Rattle.sv_grammar.specs.Grammar.{star};
    ghost use Rattle.sv_grammar.specs.ListTrees.{list_tree};

    ghost part = { star A.part };

    ghost tree = { λ xs. list_tree (map A.tree xs) };

    fn parse(reader: &R, cursor: &mut Cursor<'_>) -> Result<Items<A>, ParseError> {
        let mut items = Items::new(cursor.alloc());
        'more: while A::begins(cursor) {
            items.push(A::parse(reader, cursor)?)?;
        }
        Ok(items)
    }
}

/// One of them, or none.
impl<R: Nested, A: Begins<R>> Parse<R> for Option<A> {
    ghost use Rattle.sv_grammar.specs.Grammar.{opt};
    ghost use Rattle.sv_ast.specs.Trees.{optional};

    ghost part = { opt A.part };

    ghost tree = { optional A.tree };

    fn parse(reader: &R, cursor: &mut Cursor<'_>) -> Result<Option<A>, ParseError> {
        if A::begins(cursor) {
            Ok(Some(A::parse(reader, cursor)?))
        } else {
            Ok(None)
        }
    }
}

/// The same, in a box of its own.
impl<R: Nested, A: Parse<R>> Parse<R> for Boxed<A> {
    ghost part = { A.part };

    ghost tree = { A.tree };

    fn parse(reader: &R, cursor: &mut Cursor<'_>) -> Result<Boxed<A>, ParseError> {
        let node = A::parse(reader, cursor)?;
        Ok(Boxed::new(cursor.alloc(), node)?)
    }
}

impl<R: Nested, A: Parse<R>, B: Parse<R>, C: Parse<R>> Parse<R> for (A, B, C) {
    ghost use Rattle.sv_grammar.specs.Grammar.{seq};
    ghost use Rattle.sv_ast.specs.Trees.{◌⊗◌};

    ghost part = { seq A.part (seq B.part C.part) };

    ghost tree = { λ p. A.tree p.0 ⊗ B.tree p.1 ⊗ C.tree p.2 };

    fn parse(reader: &R, cursor: &mut Cursor<'_>) -> Result<(A, B, C), ParseError> {
        let (a, (b, c)) = Parse::parse(reader, cursor)?;
        Ok((a, b, c))
    }
}

impl<R: Nested, A: Parse<R>, B: Parse<R>, C: Parse<R>, D: Parse<R>> Parse<R> for (A, B, C, D) {
    ghost use Rattle.sv_grammar.specs.Grammar.{seq};
    ghost use Rattle.sv_ast.specs.Trees.{◌⊗◌};

    ghost part = { seq A.part (seq B.part (seq C.part D.part)) };

    ghost tree = { λ p. A.tree p.0 ⊗ B.tree p.1 ⊗ C.tree p.2 ⊗ D.tree p.3 };

    fn parse(reader: &R, cursor: &mut Cursor<'_>) -> Result<(A, B, C, D), ParseError> {
        let (a, (b, (c, d))) = Parse::parse(reader, cursor)?;
        Ok((a, b, c, d))
    }
}

impl<R: Nested, A: Parse<R>, B: Parse<R>, C: Parse<R>, D: Parse<R>, E: Parse<R>> Parse<R>
    for (A, B, C, D, E) {
    ghost use Rattle.sv_grammar.specs.Grammar.{seq};
    ghost use Rattle.sv_ast.specs.Trees.{◌⊗◌};

    ghost part = { seq A.part (seq B.part (seq C.part (seq D.part E.part))) };

    ghost tree = { λ p. A.tree p.0 ⊗ B.tree p.1 ⊗ C.tree p.2 ⊗ D.tree p.3 ⊗ E.tree p.4 };

    fn parse(reader: &R, cursor: &mut Cursor<'_>) -> Result<(A, B, C, D, E), ParseError> {
        let (a, (b, (c, (d, e)))) = Parse::parse(reader, cursor)?;
        Ok((a, b, c, d, e))
    }
}

/// Told by the one, where that has a token.
impl<R: Nested, A: Begins<R>, B: Parse<R>> Begins<R> for (A, B) {
    ghost use Rattle.sv_read.specs.FilledParts.{first_filled};

    fn begins(cursor: &Cursor<'_>) -> bool {
        A::begins(cursor)
    }

    ghost filled = { first_filled A.part B.part A.filled };
}

impl<R: Nested, A: Begins<R>, B: Parse<R>, C: Parse<R>> Begins<R> for (A, B, C) {
    ghost use Rattle.sv_grammar.specs.Grammar.{seq};
    ghost use Rattle.sv_read.specs.FilledParts.{first_filled};

    fn begins(cursor: &Cursor<'_>) -> bool {
        A::begins(cursor)
    }

    ghost filled = { first_filled A.part (seq B.part C.part) A.filled };
}

impl<R: Nested, A: Begins<R>, B: Parse<R>, C: Parse<R>, D: Parse<R>> Begins<R> for (A, B, C, D) {
    ghost use Rattle.sv_grammar.specs.Grammar.{seq};
    ghost use Rattle.sv_read.specs.FilledParts.{first_filled};

    fn begins(cursor: &Cursor<'_>) -> bool {
        A::begins(cursor)
    }

    ghost filled = { first_filled A.part (seq B.part (seq C.part D.part)) A.filled };
}

impl<R: Nested, A: Begins<R>, B: Parse<R>, C: Parse<R>, D: Parse<R>, E: Parse<R>> Begins<R>
    for (A, B, C, D, E) {
    ghost use Rattle.sv_grammar.specs.Grammar.{seq};
    ghost use Rattle.sv_read.specs.FilledParts.{first_filled};

    fn begins(cursor: &Cursor<'_>) -> bool {
        A::begins(cursor)
    }

    ghost filled = { first_filled A.part (seq B.part (seq C.part (seq D.part E.part))) A.filled };
}

impl<R: Nested, A: Begins<R>> Begins<R> for Boxed<A> {
    fn begins(cursor: &Cursor<'_>) -> bool {
        A::begins(cursor)
    }

    ghost filled = { A.filled };
}

/// What is held, with what was read behind it. It is let go only here, where its type is a parameter.
pub fn with<X: Drop, Y>(held: X, read: Result<Y, ParseError>) -> Result<(X, Y), ParseError>
    ensures reads { (tree : Y → Tree) (a : Part Side) (old new : Here) → Reads tree a old read new → Reads (λ p. tree p.1) a old result new }
    ensures holds { IfOk result (λ p. p.0 ≡ held) }
{
    Ok((held, read?))
}

/// What the rule of a side reads, and where it lies.
pub fn placed<R: Nested, A: Parse<R>>(
    reader: &R,
    cursor: &mut Cursor<'_>,
) -> Result<(A, Span, Place), ParseError>
    requires { MayRead (R.nests reader.now) (R.floor reader.now) (leads R.inner A.part) cursor.old.at }
    ensures { (s : Side) → rules s ≡ A.part → Reads (λ p. node (extent p.1 p.2) (A.tree p.0)) (side s) cursor.old result cursor.new }
{
    let from = cursor.at();
    let read = A::parse(reader, cursor)?;
    let Extent { span, place } = cursor.extent(from);
    Ok((read, span, place))
}
