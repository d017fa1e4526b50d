//! Declarations of variables, and where their values lie.
#![tactic(auto, using(sv_read::proofs::Reading::fails_memory))]

ghost use Rattle.std.specs.Prelude.{◌≡◌, false, refl};
ghost use Rattle.sv_parse_stmt.specs.StmtWords.{elem, side, decl_tree, location_tree, location_kind_tree, Reads};
ghost use Rattle.sv_ast.specs.Syntax as g;

use crate::reader::{NestedStmts, Statements};
use sv_ast::{Decl, Expr, TypeExpr, Where, WhereKind};
use sv_read::Either::{self, First, Second};
use sv_read::words::{CALLDATA, EQUALS, MEMORY, STORAGE};
use sv_read::{Begins, Class, Cursor, Nested, Parse, ParseError, Word, behind, placed};
use sv_text::Name;

/// A declaration of a variable, as `uint256[] memory a = b`.
impl<N: NestedStmts> Parse<Statements<N>> for Decl {
    ghost part = { side g.decl };

    ghost tree = { decl_tree };

    fn parse(reader: &Statements<N>, cursor: &mut Cursor<'_>) -> Result<Decl, ParseError> {
        type Parts = (TypeExpr, Option<Where>, Name, Option<(Word<EQUALS>, Expr)>);
        let ((of_type, location, name, value), span, place) = placed::<_, Parts>(reader, cursor)?;
        Ok(Decl {
            of_type,
            location,
            name,
            value: behind(value),
            span,
            place,
        })
    }
}

/// Where a value lies, as `memory`.
impl<N: NestedStmts> Parse<Statements<N>> for Where {
    ghost part = { side g.location };

    ghost tree = { location_tree };

    fn parse(_reader: &Statements<N>, cursor: &mut Cursor<'_>) -> Result<Where, ParseError> {
        read_location(cursor)
    }
}

impl<N: NestedStmts> Begins<Statements<N>> for Where {
    fn begins(cursor: &Cursor<'_>) -> bool {
        cursor.sees_any(&[Class::Calldata, Class::Memory, Class::Storage])
    }

    ghost filled = { refl };
}

/// Who reads where nothing nests.
struct Alone;

impl Nested for Alone {
    ghost inner = { λ _. false };

    ghost floor = { λ _. 0 };

    ghost nests = { λ _. Unit {0} };
}

/// Where a value lies, as `memory`.
pub fn read_location(cursor: &mut Cursor<'_>) -> Result<Where, ParseError>
    ensures { Reads location_tree (side g.location) cursor.old result cursor.new }
{
    let (kind, span, place) = placed(&Alone, cursor)?;
    Ok(Where { kind, span, place })
}

impl Parse<Alone> for WhereKind {
    ghost part = { g.rules g.location };

    ghost tree = { location_kind_tree };

    fn parse(reader: &Alone, cursor: &mut Cursor<'_>) -> Result<WhereKind, ParseError> {
        type Forms = Either<Word<STORAGE>, Either<Word<MEMORY>, Word<CALLDATA>>>;
        match <Forms as Parse<Alone>>::parse(reader, cursor)? {
            First(_) => Ok(WhereKind::Storage),
            Second(First(_)) => Ok(WhereKind::Memory),
            Second(Second(_)) => Ok(WhereKind::Calldata),
        }
    }
}
