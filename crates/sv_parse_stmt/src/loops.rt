//! Loops.
#![tactic(auto, using(sv_read::proofs::Reading::fails_memory))]

ghost use Rattle.std.specs.Prelude.{◌≡◌, refl};
ghost use Rattle.sv_parse_stmt.specs.StmtWords.{both, elem, side, but_semicolon, for_tree, for_start_tree, keyword_tree, while_tree};
ghost use Rattle.sv_ast.specs.Syntax as g;

use crate::reader::{NestedStmts, Statements};
use crate::simple::ButSemicolon;
use sqlite_items::Items;
use sv_ast::{Action, Body, Decl, Expr, For, ForStart, Keyword, Note, While};
use sv_parse_expr::sees_type;
use sv_read::Either::{First, Second};
use sv_read::words::{FOR, L_PAREN, R_PAREN, SEMICOLON, WHILE};
use sv_read::{Begins, Both, Cursor, Parse, ParseError, Word, placed};

/// `while`, with its place.
#[derive(Drop)]
struct WhileWord(Keyword);

impl<N: NestedStmts> Parse<Statements<N>> for WhileWord {
    ghost part = { side g.while_word };

    ghost tree = { λ w. keyword_tree w.0 };

    fn parse(reader: &Statements<N>, cursor: &mut Cursor<'_>) -> Result<WhileWord, ParseError> {
        let (_, span, place) = placed::<_, Word<WHILE>>(reader, cursor)?;
        Ok(WhileWord(Keyword { span, place }))
    }
}

/// `for`, with its place.
#[derive(Drop)]
struct ForWord(Keyword);

impl<N: NestedStmts> Parse<Statements<N>> for ForWord {
    ghost part = { side g.for_word };

    ghost tree = { λ w. keyword_tree w.0 };

    fn parse(reader: &Statements<N>, cursor: &mut Cursor<'_>) -> Result<ForWord, ParseError> {
        let (_, span, place) = placed::<_, Word<FOR>>(reader, cursor)?;
        Ok(ForWord(Keyword { span, place }))
    }
}

/// A loop with a condition, as `while (a) { .. }`.
impl<N: NestedStmts> Parse<Statements<N>> for While {
    ghost part = { side g.while };

    ghost tree = { while_tree };

    fn parse(reader: &Statements<N>, cursor: &mut Cursor<'_>) -> Result<While, ParseError> {
        type End = (Word<R_PAREN>, Body);
        type Parts = (Items<Note>, WhileWord, Word<L_PAREN>, Expr, End);
        let ((notes, word, _, condition, end), span, place) = placed::<_, Parts>(reader, cursor)?;
        Ok(While {
            notes,
            keyword: word.0,
            condition,
            body: end.1,
            span,
            place,
        })
    }
}

/// A loop with a start and a step, as `for (uint256 i = 0; i < n; i++) { .. }`.
impl<N: NestedStmts> Parse<Statements<N>> for For {
    ghost part = { side g.for };

    ghost tree = { for_tree };

    fn parse(reader: &Statements<N>, cursor: &mut Cursor<'_>) -> Result<For, ParseError> {
        type Step = (Option<Action>, Word<R_PAREN>, Body);
        type Test = (Word<SEMICOLON>, Option<Expr>, Word<SEMICOLON>, Step);
        type Parts = (Items<Note>, ForWord, Word<L_PAREN>, Option<ForStart>, Test);
        let ((notes, word, _, start, test), span, place) = placed::<_, Parts>(reader, cursor)?;
        Ok(For {
            notes,
            keyword: word.0,
            start,
            condition: test.1,
            step: test.3.0,
            body: test.3.2,
            span,
            place,
        })
    }
}

/// How a `for` starts: with a declaration or an action.
impl<N: NestedStmts> Parse<Statements<N>> for ForStart {
    ghost part = { both but_semicolon (side g.decl) (side g.action) };

    ghost tree = { for_start_tree };

    fn parse(reader: &Statements<N>, cursor: &mut Cursor<'_>) -> Result<ForStart, ParseError> {
        type Forms = Both<ButSemicolon, Decl, Action>;
        match <Forms as Parse<Statements<N>>>::parse(reader, cursor)?.way {
            First(decl) => Ok(ForStart::Decl(decl)),
            Second(action) => Ok(ForStart::Action(action)),
        }
    }
}

impl<N: NestedStmts> Begins<Statements<N>> for ForStart {
    fn begins(cursor: &Cursor<'_>) -> bool {
        sees_type(cursor) || <Action as Begins<Statements<N>>>::begins(cursor)
    }

    ghost filled = { refl };
}
