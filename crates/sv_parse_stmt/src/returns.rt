//! `return`, with its values.
#![tactic(auto, using(sv_read::proofs::Reading::fails_memory))]

ghost use Rattle.std.specs.Prelude.{◌≡◌, refl};
ghost use Rattle.sv_parse_stmt.specs.StmtWords.{both, elem, side, but_semicolon, listed, quoted, ◌⊙◌, return_tree, returned_tree};
ghost use Rattle.sv_ast.specs.declared.class.Class.TheVariants as k;
ghost use Rattle.sv_ast.specs.Syntax as g;

use crate::reader::{NestedStmts, Statements};
use crate::simple::ButSemicolon;
use crate::two_or_more::TwoOrMore;
use sv_ast::{Expr, Return, Returned};
use sv_parse_expr::sees_expr;
use sv_read::Either::{First, Second};
use sv_read::words::{L_PAREN, R_PAREN, RETURN};
use sv_read::{Begins, Both, Class, Cursor, Parse, ParseError, Word, placed};

/// A return, as `return a` or `return (a, b)`.
impl<N: NestedStmts> Parse<Statements<N>> for Return {
    ghost part = { side g.return };

    ghost tree = { return_tree };

    fn parse(reader: &Statements<N>, cursor: &mut Cursor<'_>) -> Result<Return, ParseError> {
        type Parts = (Word<RETURN>, Option<Returned>);
        let ((_, values), span, place) = placed::<_, Parts>(reader, cursor)?;
        Ok(Return {
            values,
            span,
            place,
        })
    }
}

impl<N: NestedStmts> Begins<Statements<N>> for Return {
    fn begins(cursor: &Cursor<'_>) -> bool {
        cursor.sees(Class::Return)
    }

    ghost filled = { refl };
}

/// What is returned: one value, or two or more in brackets.
impl<N: NestedStmts> Parse<Statements<N>> for Returned {
    ghost part = { both but_semicolon (side g.expr) (quoted k.LParen ⊙ side g.expr ⊙ quoted k.Comma ⊙ listed (side g.expr) ⊙ quoted k.RParen) };

    ghost tree = { returned_tree };

    fn parse(reader: &Statements<N>, cursor: &mut Cursor<'_>) -> Result<Returned, ParseError> {
        type Several = (Word<L_PAREN>, TwoOrMore<Expr, Word<R_PAREN>>);
        type Forms = Both<ButSemicolon, Expr, Several>;
        match <Forms as Parse<Statements<N>>>::parse(reader, cursor)?.way {
            First(value) => Ok(Returned::One(value)),
            Second((_, values)) => Ok(Returned::Many(values.items)),
        }
    }
}

impl<N: NestedStmts> Begins<Statements<N>> for Returned {
    fn begins(cursor: &Cursor<'_>) -> bool {
        sees_expr(cursor)
    }

    ghost filled = { refl };
}
