//! Statements of every kind, blocks, and the bodies of branches and loops.
#![tactic(auto, using(sv_read::proofs::Reading::fails_memory))]

ghost use Rattle.std.specs.Prelude.{◌≡◌, [], refl};
ghost use Rattle.sv_parse_stmt.specs.StmtWords.{elem, side, last, firsts, block_tree, body_tree, body_kind_tree, for_tree, stmt_tree, stmt_kind_tree, while_tree, MayRead, leads, Reads, either_tree, inner};
ghost use Rattle.sv_ast.specs.Syntax as g;

use crate::reader::{NestedStmts, Statements};
use sqlite_items::Items;
use sv_ast::{Block, Body, BodyKind, For, If, Simple, Stmt, StmtKind, While};
use sv_read::Either::{self, First, Second};
use sv_read::words::{L_BRACE, R_BRACE, SEMICOLON, UNCHECKED};
use sv_read::{Begins, Both, Class, Classes, Cursor, Parse, ParseError, Word, placed};

/// A statement of any kind.
pub fn stmt_rule<N: NestedStmts>(
    reader: &Statements<N>,
    cursor: &mut Cursor<'_>,
) -> Result<Stmt, ParseError>
    requires { MayRead (N.nests reader.now.nested) (N.floor reader.now.nested) (leads inner (g.rules g.stmt)) cursor.old.at }
    ensures { Reads stmt_tree (side g.stmt) cursor.old result cursor.new }
{
    let (kind, span, place) = placed(reader, cursor)?;
    Ok(Stmt { kind, span, place })
}

/// No class: what begins alike is told by how far it goes.
struct Nowhere;

impl Classes for Nowhere {
    ghost classes = { [] };
}

impl<N: NestedStmts> Parse<Statements<N>> for StmtKind {
    ghost part = { g.rules g.stmt };

    ghost tree = { stmt_kind_tree };

    fn parse(reader: &Statements<N>, cursor: &mut Cursor<'_>) -> Result<StmtKind, ParseError> {
        type Ended = (Simple, Word<SEMICOLON>);
        type Forms = Either<
            Block,
            Either<(Word<UNCHECKED>, Block), Either<Ended, Either<If, Both<Nowhere, While, For>>>>,
        >;
        match <Forms as Parse<Statements<N>>>::parse(reader, cursor)? {
            First(block) => Ok(StmtKind::Block(block)),
            Second(First((_, block))) => Ok(StmtKind::Unchecked(block)),
            Second(Second(First((simple, _)))) => Ok(StmtKind::Simple(simple)),
            Second(Second(Second(First(branches)))) => Ok(StmtKind::If(branches)),
            Second(Second(Second(Second(repeated)))) => Ok(loop_kind(repeated.way)),
        }
    }
}

/// The kind of a statement that is a loop.
fn loop_kind(read: Either<While, For>) -> StmtKind
    ensures { stmt_kind_tree result ≡ last 4 (either_tree while_tree for_tree read) }
{
    match read {
        First(stmt) => StmtKind::While(stmt),
        Second(stmt) => StmtKind::For(stmt),
    }
}

/// What a statement begins with that does not end with `;`.
#[rattlefmt::skip]
const COMPOUND: [Class; 6] = [
    Class::Note, Class::For, Class::If, Class::Unchecked, Class::While, Class::LBrace,
];

impl<N: NestedStmts> Begins<Statements<N>> for Stmt {
    fn begins(cursor: &Cursor<'_>) -> bool {
        <Simple as Begins<Statements<N>>>::begins(cursor) || cursor.sees_any(&COMPOUND)
    }

    ghost filled = { refl };
}

/// Statements in braces, as `{ a = b; f(); }`.
impl<N: NestedStmts> Parse<Statements<N>> for Block {
    ghost part = { side g.block };

    ghost tree = { block_tree };

    fn parse(reader: &Statements<N>, cursor: &mut Cursor<'_>) -> Result<Block, ParseError> {
        type Parts = (Word<L_BRACE>, Items<Stmt>, Word<R_BRACE>);
        let ((_, stmts, _), span, place) = placed::<_, Parts>(reader, cursor)?;
        Ok(Block { stmts, span, place })
    }
}

impl<N: NestedStmts> Begins<Statements<N>> for Block {
    fn begins(cursor: &Cursor<'_>) -> bool {
        cursor.sees(Class::LBrace)
    }

    ghost filled = { refl };
}

/// What is run under a condition or in a loop.
impl<N: NestedStmts> Parse<Statements<N>> for Body {
    ghost part = { side g.body };

    ghost tree = { body_tree };

    fn parse(reader: &Statements<N>, cursor: &mut Cursor<'_>) -> Result<Body, ParseError> {
        let (kind, span, place) = placed(reader, cursor)?;
        Ok(Body { kind, span, place })
    }
}

impl<N: NestedStmts> Parse<Statements<N>> for BodyKind {
    ghost part = { g.rules g.body };

    ghost tree = { body_kind_tree };

    fn parse(reader: &Statements<N>, cursor: &mut Cursor<'_>) -> Result<BodyKind, ParseError> {
        type Forms = Either<Block, (Simple, Word<SEMICOLON>)>;
        match <Forms as Parse<Statements<N>>>::parse(reader, cursor)? {
            First(block) => Ok(BodyKind::Block(block)),
            Second((simple, _)) => Ok(BodyKind::Simple(simple)),
        }
    }
}
