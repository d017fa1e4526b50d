//! Lists with commas, and parts that follow a word each.

use crate::cursor::Cursor;
use crate::parse::{Begins, Nested, Parse};
use crate::parse_error::ParseError;
use sqlite_items::Items;
use sv_ast::Class;

/// One or more, with commas between.
#[derive(Drop)]
pub struct Listed<A>(pub Items<A>);

impl<R: Nested, A: Parse<R>> Parse<R> for Listed<A> {
    ghost use Rattle.std.specs.Prelude.{map};
    ghost use Rattle.sv_ast.specs.Syntax.{listed};
    ghost use Rattle.sv_ast.specs.Trees.{commas};

    ghost part = { listed A.part };

    ghost tree = { λ l. commas (map A.tree l.0) };

    fn parse(reader: &R, cursor: &mut Cursor<'_>) -> Result<Listed<A>, ParseError> {
        let first = A::parse(reader, cursor)?;
        let mut items = Items::new(cursor.alloc());
        items.push(first)?;
        'more: while cursor.sees(Class::Comma) {
            cursor.expect(Class::Comma)?;
            items.push(A::parse(reader, cursor)?)?;
        }
        Ok(Listed(items))
    }
}

impl<R: Nested, A: Begins<R>> Begins<R> for Listed<A> {
    ghost use Rattle.sv_grammar.specs.Grammar.{seq, star};
    ghost use Rattle.sv_ast.specs.declared.class.Class.TheVariants as k;
    ghost use Rattle.sv_ast.specs.Syntax.{quoted};
    ghost use Rattle.sv_read.specs.FilledParts.{first_filled};

    fn begins(cursor: &Cursor<'_>) -> bool {
        A::begins(cursor)
    }

    ghost filled = { first_filled A.part (star (seq (quoted k.Comma) A.part)) A.filled };
}

/// Any number, with commas between.
#[derive(Drop)]
pub struct Commas<A>(pub Items<A>);

impl<R: Nested, A: Begins<R>> Parse<R> for Commas<A> {
    ghost use Rattle.std.specs.Prelude.{map};
    ghost use Rattle.sv_grammar.specs.Grammar.{opt};
    ghost use Rattle.sv_ast.specs.Syntax.{listed};
    ghost use Rattle.sv_ast.specs.Trees.{optional_commas};

    ghost part = { opt (listed A.part) };

    ghost tree = { λ l. optional_commas (map A.tree l.0) };

    fn parse(reader: &R, cursor: &mut Cursor<'_>) -> Result<Commas<A>, ParseError> {
        match <Option<Listed<A>> as Parse<R>>::parse(reader, cursor)? {
            Some(Listed(items)) => Ok(Commas(items)),
            None => Ok(Commas(Items::new(cursor.alloc()))),
        }
    }
}

/// Any number, with a token of the class with this number before each.
#[derive(Drop)]
pub struct Led<const CLASS: u8, A>(pub Items<A>);

impl<R: Nested, const CLASS: u8, A: Parse<R>> Parse<R> for Led<CLASS, A> {
    ghost use Rattle.std.specs.Prelude.{◌+◌, ◌∷◌, [], map};
    ghost use Rattle.sv_grammar.specs.Grammar.{pair, seq, star, unit, word};
    ghost use Rattle.sv_grammar.specs.ListTrees.{list_tree};

    ghost part = { star (seq (word ((CLASS + 1) ∷ [])) A.part) };

    ghost tree = { λ l. list_tree (map (pair unit) (map A.tree l.0)) };

    fn parse(reader: &R, cursor: &mut Cursor<'_>) -> Result<Led<CLASS, A>, ParseError> {
        let mut items = Items::new(cursor.alloc());
        'more: while cursor.sees_word(CLASS) {
            cursor.word(CLASS)?;
            items.push(A::parse(reader, cursor)?)?;
        }
        Ok(Led(items))
    }
}
