//! Expressions that stand alone, assignments and deletions.
#![tactic(auto, using(sv_read::proofs::Reading::fails_memory))]

ghost use Rattle.std.specs.Prelude.{◌≡◌, refl};
ghost use Rattle.sv_parse_stmt.specs.StmtWords.{elem, side, ◌⊙◌, firsts, action_tree, action_kind_tree, assignment_tree, assign_op_tree, assign_op_kind_tree};
ghost use Rattle.sv_ast.specs.Syntax as g;

use crate::reader::{NestedStmts, Statements};
use sv_ast::{Action, ActionKind, AssignOp, AssignOpKind, Assignment, Expr};
use sv_parse_expr::sees_expr;
use sv_read::Either::{self, First, Second};
use sv_read::words::{
    DELETE, DIVIDE_EQUALS, EQUALS, MINUS_EQUALS, PLUS_EQUALS, REMAINDER_EQUALS, TIMES_EQUALS,
};
use sv_read::{Begins, Class, Cursor, Parse, ParseError, Word, placed};

/// An expression, an assignment or a `delete`.
impl<N: NestedStmts> Parse<Statements<N>> for Action {
    ghost part = { side g.action };

    ghost tree = { action_tree };

    fn parse(reader: &Statements<N>, cursor: &mut Cursor<'_>) -> Result<Action, ParseError> {
        let (kind, span, place) = placed(reader, cursor)?;
        Ok(Action { kind, span, place })
    }
}

impl<N: NestedStmts> Begins<Statements<N>> for Action {
    fn begins(cursor: &Cursor<'_>) -> bool {
        cursor.sees(Class::Delete) || sees_expr(cursor)
    }

    ghost filled = { refl };
}

impl<N: NestedStmts> Parse<Statements<N>> for ActionKind {
    ghost part = { g.rules g.action };

    ghost tree = { action_kind_tree };

    fn parse(reader: &Statements<N>, cursor: &mut Cursor<'_>) -> Result<ActionKind, ParseError> {
        type Forms = Either<(Word<DELETE>, Expr), (Expr, Option<Assignment>)>;
        match <Forms as Parse<Statements<N>>>::parse(reader, cursor)? {
            First((_, deleted)) => Ok(ActionKind::Delete(deleted)),
            Second((target, assignment)) => Ok(ActionKind::Expr { target, assignment }),
        }
    }
}

/// The operators of assignments.
#[rattlefmt::skip]
const ASSIGNS: [Class; 6] = [
    Class::Equals, Class::PlusEquals, Class::MinusEquals, Class::TimesEquals, Class::DivideEquals,
    Class::RemainderEquals,
];

/// An operator and the value that is assigned, as `+= b`.
impl<N: NestedStmts> Parse<Statements<N>> for Assignment {
    ghost part = { side g.assign_op ⊙ side g.expr };

    ghost tree = { assignment_tree };

    fn parse(reader: &Statements<N>, cursor: &mut Cursor<'_>) -> Result<Assignment, ParseError> {
        let (op, value) = Parse::parse(reader, cursor)?;
        Ok(Assignment { op, value })
    }
}

impl<N: NestedStmts> Begins<Statements<N>> for Assignment {
    fn begins(cursor: &Cursor<'_>) -> bool {
        cursor.sees_any(&ASSIGNS)
    }

    ghost filled = { refl };
}

/// An operator of an assignment, as `+=`.
impl<N: NestedStmts> Parse<Statements<N>> for AssignOp {
    ghost part = { side g.assign_op };

    ghost tree = { assign_op_tree };

    fn parse(reader: &Statements<N>, cursor: &mut Cursor<'_>) -> Result<AssignOp, ParseError> {
        let (kind, span, place) = placed(reader, cursor)?;
        Ok(AssignOp { kind, span, place })
    }
}

impl<N: NestedStmts> Parse<Statements<N>> for AssignOpKind {
    ghost part = { g.rules g.assign_op };

    ghost tree = { assign_op_kind_tree };

    fn parse(reader: &Statements<N>, cursor: &mut Cursor<'_>) -> Result<AssignOpKind, ParseError> {
        type Scaled = Either<
            Word<TIMES_EQUALS>,
            Either<Word<DIVIDE_EQUALS>, Word<REMAINDER_EQUALS>>,
        >;
        type Forms = Either<
            Word<EQUALS>,
            Either<Word<PLUS_EQUALS>, Either<Word<MINUS_EQUALS>, Scaled>>,
        >;
        match <Forms as Parse<Statements<N>>>::parse(reader, cursor)? {
            First(_) => Ok(AssignOpKind::Set),
            Second(First(_)) => Ok(AssignOpKind::Add),
            Second(Second(First(_))) => Ok(AssignOpKind::Subtract),
            Second(Second(Second(First(_)))) => Ok(AssignOpKind::Multiply),
            Second(Second(Second(Second(First(_))))) => Ok(AssignOpKind::Divide),
            Second(Second(Second(Second(Second(_))))) => Ok(AssignOpKind::Remainder),
        }
    }
}
