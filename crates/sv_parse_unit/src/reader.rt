//! The reader of whole texts: sides with where they lie, lists of one or more, and what the crates below read.

ghost use Rattle.std.specs.Prelude.{◌≡◌, ◌∷◌, IfOk, false, map, refl};
ghost use Rattle.sv_parse_unit.specs.UnitWords.{elem, node, side, Side, extent, several, args_tree, expr_tree, type_tree, location_tree, note_tree, block_tree, MayRead, leads, Reads};
ghost use Rattle.sv_ast.specs.Syntax as g;

use sqlite_items::Items;
use std::alloc::{AllocError, Global};
use sv_ast::{Args, Block, Expr, Note, TypeExpr, Where};
use sv_notes::read_note;
use sv_parse_expr::{read_args, read_expr, read_type};
use sv_parse_stmt::{read_block, read_location};
use sv_read::{Begins, Class, Cursor, Nested, Parse, ParseError};
use sv_text::{Place, Span};

/// The reader of whole texts: in their parts nothing nests but what the crates below read.
pub struct Units;

impl Nested for Units {
    ghost inner = { λ _. false };

    ghost floor = { λ _. 0 };

    ghost nests = { λ _. Unit {0} };
}

/// One or more.
#[derive(Drop)]
pub struct Several<A>(pub Items<A>);

impl<A: Begins<Units>> Parse<Units> for Several<A> {
    ghost part = { g.several A.part };

    ghost tree = { λ l. several (map A.tree l.0) };

    fn parse(reader: &Units, cursor: &mut Cursor<'_>) -> Result<Several<A>, ParseError> {
        let (first, others) = Parse::parse(reader, cursor)?;
        Ok(Several(with_first(cursor.alloc(), first, others)?))
    }
}

/// One, and then the others.
fn with_first<A: Drop>(alloc: Global, first: A, others: Items<A>) -> Result<Items<A>, AllocError>
    ensures { IfOk result (λ all. all ≡ first ∷ others) }
{
    let mut all = Items::new(alloc);
    all.push(first)?;
    all.append(others)?;
    Ok(all)
}

impl Parse<Units> for Expr {
    ghost part = { side g.expr };

    ghost tree = { expr_tree };

    fn parse(_reader: &Units, cursor: &mut Cursor<'_>) -> Result<Expr, ParseError> {
        read_expr(cursor)
    }
}

impl Parse<Units> for TypeExpr {
    ghost part = { side g.type };

    ghost tree = { type_tree };

    fn parse(_reader: &Units, cursor: &mut Cursor<'_>) -> Result<TypeExpr, ParseError> {
        read_type(cursor)
    }
}

impl Parse<Units> for Args {
    ghost part = { side g.args };

    ghost tree = { args_tree };

    fn parse(_reader: &Units, cursor: &mut Cursor<'_>) -> Result<Args, ParseError> {
        read_args(cursor)
    }
}

impl Begins<Units> for Args {
    ghost filled = { refl };

    fn begins(cursor: &Cursor<'_>) -> bool {
        cursor.sees(Class::LParen)
    }
}

impl Parse<Units> for Note {
    ghost part = { side g.note_line };

    ghost tree = { note_tree };

    fn parse(_reader: &Units, cursor: &mut Cursor<'_>) -> Result<Note, ParseError> {
        read_note(cursor)
    }
}

impl Begins<Units> for Note {
    ghost filled = { refl };

    fn begins(cursor: &Cursor<'_>) -> bool {
        cursor.sees(Class::Note)
    }
}

impl Parse<Units> for Where {
    ghost part = { side g.location };

    ghost tree = { location_tree };

    fn parse(_reader: &Units, cursor: &mut Cursor<'_>) -> Result<Where, ParseError> {
        read_location(cursor)
    }
}

impl Begins<Units> for Where {
    ghost filled = { refl };

    fn begins(cursor: &Cursor<'_>) -> bool {
        cursor.sees_any(&[Class::Calldata, Class::Memory, Class::Storage])
    }
}

impl Parse<Units> for Block {
    ghost part = { side g.block };

    ghost tree = { block_tree };

    fn parse(_reader: &Units, cursor: &mut Cursor<'_>) -> Result<Block, ParseError> {
        read_block(cursor)
    }
}

impl Begins<Units> for Block {
    ghost filled = { refl };

    fn begins(cursor: &Cursor<'_>) -> bool {
        cursor.sees(Class::LBrace)
    }
}
