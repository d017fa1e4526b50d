//! Annotation lines behind a cursor.
#![tactic(auto, using(sv_read::proofs::Reading::fails_memory))]

ghost use Rattle.std.specs.Prelude.{ℕ, false, map, refl};
ghost use Rattle.sv_grammar.specs.Grammar.{side, star};
ghost use Rattle.sv_grammar.specs.ListTrees.{list_tree};
ghost use Rattle.sv_ast.specs.Syntax as g;
ghost use Rattle.sv_ast.specs.ExprTrees.{expr_tree};
ghost use Rattle.sv_ast.specs.SimpleTrees.{note_tree};
ghost use Rattle.sv_read.specs.PartReading.{Reads};

use sqlite_items::Items;
use sv_ast::{Expr, Note};
use sv_parse_expr::read_expr;
use sv_read::words::{NOTE, NOTE_END};
use sv_read::{Begins, Class, Cursor, Kept, Nested, Parse, ParseError, Word, placed};

/// The reader of annotation lines, in which none nests.
struct Lines;

impl Nested for Lines {
    ghost inner = { λ _. false };

    ghost floor = { λ _. 0 };

    ghost nests = { λ _. Unit {0} };
}

impl Parse<Lines> for Expr {
    ghost part = { side g.expr };

    ghost tree = { expr_tree };

    fn parse(_reader: &Lines, cursor: &mut Cursor<'_>) -> Result<Expr, ParseError> {
        read_expr(cursor)
    }
}

/// An annotation line: its word, its expression, and its end.
impl Parse<Lines> for Note {
    ghost part = { side g.note_line };

    ghost tree = { note_tree };

    fn parse(reader: &Lines, cursor: &mut Cursor<'_>) -> Result<Note, ParseError> {
        type Parts = (Kept<NOTE>, Expr, Word<NOTE_END>);
        let ((word, expr, _), span, place) = placed::<_, Parts>(reader, cursor)?;
        Ok(Note {
            word: word.0,
            expr,
            span,
            place,
        })
    }
}

impl Begins<Lines> for Note {
    fn begins(cursor: &Cursor<'_>) -> bool {
        cursor.sees_any(&[Class::Note])
    }

    ghost filled = { refl };
}

/// The annotation lines behind a cursor, as many as there are.
pub fn note_lines(cursor: &mut Cursor<'_>) -> Result<Items<Note>, ParseError>
    ensures { Reads (λ ns. list_tree (map note_tree ns)) (star (side g.note_line)) cursor.old result cursor.new }
{
    Parse::parse(&Lines, cursor)
}

/// An annotation line.
pub fn read_note(cursor: &mut Cursor<'_>) -> Result<Note, ParseError>
    ensures { Reads note_tree (side g.note_line) cursor.old result cursor.new }
{
    Parse::parse(&Lines, cursor)
}
