//! Statements in statements are read by a function that hands itself to the readers of their parts as a value, so that each of
//! these is proved by itself.
#![tactic(auto, using(sv_read::proofs::Reading::fails_memory))]

ghost use Rattle.std.specs.Prelude.{◌≡◌, ℕ, ◌<◌, refl};
ghost use Rattle.sv_parse_stmt.specs.StmtWords.{elem, side, firsts, args_tree, expr_tree, type_tree, note_tree, block_tree, stmt_tree, Nests, Reads, inner};
ghost use Rattle.sv_ast.specs.Syntax as g;

use crate::block::stmt_rule;
use sv_ast::{Args, Block, Expr, Note, Stmt, TypeExpr};
use sv_notes::read_note;
use sv_parse_expr::{read_args, read_expr, read_type, sees_expr, sees_type};
use sv_read::{Begins, Class, Cursor, Nested, Parse, ParseError};

/// Who reads the statements in statements, behind a position.
pub trait NestedStmts {
    ghost floor: { Self → ℕ };

    ghost nests: { Self → Type 0 };

    /// A statement in another one.
    fn stmt(&self, cursor: &mut Cursor<'_>) -> Result<Stmt, ParseError>
        requires nests { nests self.now }
        requires behind { floor self.now < cursor.old.at }
        ensures { Reads stmt_tree (side g.stmt) cursor.old result cursor.new };
}

/// The reader of statements and of their parts, with who reads the statements in these.
#[derive(Clone, Copy)]
pub struct Statements<N> {
    pub nested: N,
}

impl<N: NestedStmts> Nested for Statements<N> {
    ghost inner = { inner };

    ghost floor = { λ r. N.floor r.nested };

    ghost nests = { λ r. N.nests r.nested };
}

/// A function that reads statements behind the position `floor`.
#[derive(Clone, Copy)]
pub struct Behind<S> {
    stmt: S,
    floor: usize,
}

impl<S: Fn(&mut Cursor<'_>) -> Result<Stmt, ParseError>> NestedStmts for Behind<S> {
    ghost floor = { λ r. r.floor };

    ghost nests = { λ r. Nests stmt_tree (side g.stmt) r.floor (S.pre r.stmt) (S.post r.stmt) };

    fn stmt(&self, cursor: &mut Cursor<'_>) -> Result<Stmt, ParseError> {
        (self.stmt)(cursor)
    }
}

/// A statement, as `a = b;`.
pub fn read_stmt(cursor: &mut Cursor<'_>) -> Result<Stmt, ParseError>
    ensures { Reads stmt_tree (side g.stmt) cursor.old result cursor.new }
{
    let nested = Behind {
        stmt: read_stmt,
        floor: cursor.at(),
    };
    stmt_rule(&Statements { nested }, cursor)
}

/// Statements in braces, as `{ a = b; f(); }`.
pub fn read_block(cursor: &mut Cursor<'_>) -> Result<Block, ParseError>
    ensures { Reads block_tree (side g.block) cursor.old result cursor.new }
{
    let nested = Behind {
        stmt: read_stmt,
        floor: cursor.at(),
    };
    Parse::parse(&Statements { nested }, cursor)
}

impl<N: NestedStmts> Parse<Statements<N>> for Stmt {
    ghost part = { side g.stmt };

    ghost tree = { stmt_tree };

    fn parse(reader: &Statements<N>, cursor: &mut Cursor<'_>) -> Result<Stmt, ParseError> {
        reader.nested.stmt(cursor)
    }
}

impl<N: NestedStmts> Parse<Statements<N>> for Expr {
    ghost part = { side g.expr };

    ghost tree = { expr_tree };

    fn parse(_reader: &Statements<N>, cursor: &mut Cursor<'_>) -> Result<Expr, ParseError> {
        read_expr(cursor)
    }
}

impl<N: NestedStmts> Begins<Statements<N>> for Expr {
    fn begins(cursor: &Cursor<'_>) -> bool {
        sees_expr(cursor)
    }

    ghost filled = { refl };
}

impl<N: NestedStmts> Parse<Statements<N>> for TypeExpr {
    ghost part = { side g.type };

    ghost tree = { type_tree };

    fn parse(_reader: &Statements<N>, cursor: &mut Cursor<'_>) -> Result<TypeExpr, ParseError> {
        read_type(cursor)
    }
}

impl<N: NestedStmts> Begins<Statements<N>> for TypeExpr {
    fn begins(cursor: &Cursor<'_>) -> bool {
        sees_type(cursor)
    }

    ghost filled = { refl };
}

impl<N: NestedStmts> Parse<Statements<N>> for Args {
    ghost part = { side g.args };

    ghost tree = { args_tree };

    fn parse(_reader: &Statements<N>, cursor: &mut Cursor<'_>) -> Result<Args, ParseError> {
        read_args(cursor)
    }
}

impl<N: NestedStmts> Parse<Statements<N>> for Note {
    ghost part = { side g.note_line };

    ghost tree = { note_tree };

    fn parse(_reader: &Statements<N>, cursor: &mut Cursor<'_>) -> Result<Note, ParseError> {
        read_note(cursor)
    }
}

impl<N: NestedStmts> Begins<Statements<N>> for Note {
    fn begins(cursor: &Cursor<'_>) -> bool {
        cursor.sees(Class::Note)
    }

    ghost filled = { refl };
}
