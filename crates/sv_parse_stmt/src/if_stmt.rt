//! Conditions with their branches.
#![tactic(auto, using(sv_read::proofs::Reading::fails_memory))]

ghost use Rattle.std.specs.Prelude.{◌≡◌, false, refl};
ghost use Rattle.sv_parse_stmt.specs.StmtWords.{opt, side, if_tree, MayRead, Reads, ended_tree};
ghost use Rattle.sv_ast.specs.Syntax as g;

use crate::reader::{NestedStmts, Statements};
use sqlite_items::Items;
use sv_ast::{Body, Else, ElseIf, Expr, If};
use sv_read::words::{IF, L_PAREN, R_PAREN};
use sv_read::{Begins, Class, Cursor, Extent, Parse, ParseError, Word, with};

type Then = (Word<IF>, Word<L_PAREN>, Expr, Word<R_PAREN>, Body);

/// What follows the first body.
#[derive(Drop)]
struct Branches {
    else_ifs: Items<ElseIf>,
    otherwise: Option<Else>,
}

/// A condition with its branches, as `if (a) { .. } else { .. }`.
impl<N: NestedStmts> Parse<Statements<N>> for If {
    ghost part = { side g.if };

    ghost tree = { if_tree };

    fn parse(reader: &Statements<N>, cursor: &mut Cursor<'_>) -> Result<If, ParseError> {
        let from = cursor.at();
        let then = <Then as Parse<Statements<N>>>::parse(reader, cursor)?;
        let ((_, _, condition, _, body), branches) = with(then, read_branches(reader, cursor))?;
        let Extent { span, place } = cursor.extent(from);
        let _end = cursor.at();
        Ok(If {
            condition,
            body,
            else_ifs: branches.else_ifs,
            otherwise: branches.otherwise,
            span,
            place,
        })
    }
}

/// The branches behind the first body, as many as there are.
#[tactic(auto, using(sv_read::proofs::Reading::fails_memory, sv_read::proofs::Nesting::may_on))]
fn read_branches<N: NestedStmts>(
    reader: &Statements<N>,
    cursor: &mut Cursor<'_>,
) -> Result<Branches, ParseError>
    requires { MayRead (N.nests reader.now.nested) (N.floor reader.now.nested) false cursor.old.at }
    ensures { Reads (ended_tree cursor.new) (opt (side g.else_part)) cursor.old result cursor.new }
{
    let mut else_ifs = Items::new(cursor.alloc());
    let mut from = cursor.at();
    'more: while cursor.sees(Class::Else) {
        cursor.expect(Class::Else)?;
        let Extent { span, place } = cursor.extent(from);
        if !cursor.sees(Class::If) {
            let body = <Body as Parse<Statements<N>>>::parse(reader, cursor)?;
            let _end = cursor.at();
            let last = Else {
                body,
                at: span.from,
                place,
            };
            return Ok(Branches {
                else_ifs,
                otherwise: Some(last),
            });
        }
        let (_, _, condition, _, body) = <Then as Parse<Statements<N>>>::parse(reader, cursor)?;
        else_ifs.push(ElseIf {
            condition,
            body,
            at: span.from,
            place,
        })?;
        from = cursor.at();
    }
    Ok(Branches {
        else_ifs,
        otherwise: None,
    })
}

impl<N: NestedStmts> Begins<Statements<N>> for If {
    fn begins(cursor: &Cursor<'_>) -> bool {
        cursor.sees(Class::If)
    }

    ghost filled = { refl };
}
