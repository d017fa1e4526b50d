//! Statements that end with `;`, without it.
#![tactic(auto, using(sv_read::proofs::Reading::fails_memory))]

ghost use Rattle.std.specs.Prelude.{◌≡◌, refl};
ghost use Rattle.sv_parse_stmt.specs.StmtWords.{elem, side, last, but_semicolon, simple_tree, simple_kind_tree, told_tree};
ghost use Rattle.sv_ast.specs.Syntax as g;

use crate::reader::{NestedStmts, Statements};
use sv_ast::{Action, Args, Decl, ForStart, Return, Simple, SimpleKind, Tuple};
use sv_read::Either::{self, First, Second};
use sv_read::words::{BREAK, CONTINUE, EMIT, REVERT, UNDERSCORE};
use sv_read::{Begins, Both, Class, Classes, Cursor, Parse, ParseError, Word, placed};
use sv_text::Name;

/// The classes by which a part goes on in place of a `;`.
pub struct ButSemicolon;

impl Classes for ButSemicolon {
    ghost classes = { but_semicolon };
}

/// A statement that ends with `;`, without it.
impl<N: NestedStmts> Parse<Statements<N>> for Simple {
    ghost part = { side g.simple };

    ghost tree = { simple_tree };

    fn parse(reader: &Statements<N>, cursor: &mut Cursor<'_>) -> Result<Simple, ParseError> {
        let (kind, span, place) = placed(reader, cursor)?;
        Ok(Simple { kind, span, place })
    }
}

/// The words that tell a statement that is no declaration and no action.
#[rattlefmt::skip]
const TOLD: [Class; 5] = [
    Class::Break, Class::Continue, Class::Emit, Class::Return, Class::Underscore,
];

impl<N: NestedStmts> Begins<Statements<N>> for Simple {
    fn begins(cursor: &Cursor<'_>) -> bool {
        <ForStart as Begins<Statements<N>>>::begins(cursor) || cursor.sees_any(&TOLD)
    }

    ghost filled = { refl };
}

type Told = Either<
    Return,
    Either<
        Word<BREAK>,
        Either<
            Word<CONTINUE>,
            Either<Word<UNDERSCORE>, Either<(Word<EMIT>, Name, Args), (Word<REVERT>, Name, Args)>>,
        >,
    >,
>;

impl<N: NestedStmts> Parse<Statements<N>> for SimpleKind {
    ghost part = { g.rules g.simple };

    ghost tree = { simple_kind_tree };

    fn parse(reader: &Statements<N>, cursor: &mut Cursor<'_>) -> Result<SimpleKind, ParseError> {
        type Single = Both<ButSemicolon, Action, Told>;
        type Forms = Both<ButSemicolon, Decl, Both<ButSemicolon, Tuple, Single>>;
        match <Forms as Parse<Statements<N>>>::parse(reader, cursor)?.way {
            First(decl) => Ok(SimpleKind::Decl(decl)),
            Second(other) => match other.way {
                First(tuple) => Ok(SimpleKind::Tuple(tuple)),
                Second(single) => match single.way {
                    First(action) => Ok(SimpleKind::Action(action)),
                    Second(told) => Ok(by_word(told)),
                },
            },
        }
    }
}

/// A statement that is told by its first word.
fn by_word(told: Told) -> SimpleKind
    ensures { simple_kind_tree result ≡ last 3 (told_tree told) }
{
    match told {
        First(returned) => SimpleKind::Return(returned),
        Second(First(_)) => SimpleKind::Break,
        Second(Second(First(_))) => SimpleKind::Continue,
        Second(Second(Second(First(_)))) => SimpleKind::Rest,
        Second(Second(Second(Second(First((_, event, args)))))) => SimpleKind::Emit { event, args },
        Second(Second(Second(Second(Second((_, error, args)))))) => {
            SimpleKind::Revert { error, args }
        }
    }
}
