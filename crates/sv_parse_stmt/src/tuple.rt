//! Several targets at once, with the value that fills them.
#![tactic(auto, using(sv_read::proofs::Reading::fails_memory))]

ghost use Rattle.std.specs.Prelude.{◌≡◌, refl};
ghost use Rattle.sv_parse_stmt.specs.StmtWords.{both, elem, opt, side, id, ◌⊙◌, slot_tree, slot_kind_tree, tuple_tree, but_name};
ghost use Rattle.sv_ast.specs.Syntax as g;

use crate::reader::{NestedStmts, Statements};
use crate::two_or_more::TwoOrMore;
use sv_ast::{Expr, Slot, SlotKind, Tuple, TypeExpr, Where};
use sv_parse_expr::sees_type;
use sv_read::Either::{First, Second};
use sv_read::words::{EQUALS, L_PAREN, R_PAREN};
use sv_read::{Begins, Both, Classes, Cursor, Parse, ParseError, Word, placed};
use sv_text::Name;

/// Two slots or more and the value that fills them, as `(a, , uint256 b) = f()`.
impl<N: NestedStmts> Parse<Statements<N>> for Tuple {
    ghost part = { side g.tuple };

    ghost tree = { tuple_tree };

    fn parse(reader: &Statements<N>, cursor: &mut Cursor<'_>) -> Result<Tuple, ParseError> {
        type Filling = (Word<R_PAREN>, Word<EQUALS>, Expr);
        type Parts = (Word<L_PAREN>, TwoOrMore<Slot, Filling>);
        let ((_, slots), span, place) = placed::<_, Parts>(reader, cursor)?;
        Ok(Tuple {
            slots: slots.items,
            value: slots.behind.2,
            span,
            place,
        })
    }
}

/// A place of a tuple, which may be empty.
impl<N: NestedStmts> Parse<Statements<N>> for Slot {
    ghost part = { side g.slot };

    ghost tree = { slot_tree };

    fn parse(reader: &Statements<N>, cursor: &mut Cursor<'_>) -> Result<Slot, ParseError> {
        let (kind, span, place) = placed(reader, cursor)?;
        Ok(Slot { kind, span, place })
    }
}

/// The classes by which a declaration goes on in place of a name alone.
struct ButName;

impl Classes for ButName {
    ghost classes = { but_name };
}

/// What stands in a slot: a new variable, or one that is there.
impl<N: NestedStmts> Parse<Statements<N>> for SlotKind {
    ghost part = { both but_name (side g.type ⊙ opt (side g.location) ⊙ id) id };

    ghost tree = { slot_kind_tree };

    fn parse(reader: &Statements<N>, cursor: &mut Cursor<'_>) -> Result<SlotKind, ParseError> {
        type New = (TypeExpr, Option<Where>, Name);
        match <Both<ButName, New, Name> as Parse<Statements<N>>>::parse(reader, cursor)?.way {
            First((of_type, location, name)) => Ok(SlotKind::Decl {
                of_type,
                location,
                name,
            }),
            Second(name) => Ok(SlotKind::Name(name)),
        }
    }
}

impl<N: NestedStmts> Begins<Statements<N>> for SlotKind {
    fn begins(cursor: &Cursor<'_>) -> bool {
        sees_type(cursor)
    }

    ghost filled = { refl };
}
