//! Types.
#![tactic(auto, using(sv_read::proofs::Reading::fails_memory))]

ghost use Rattle.std.specs.Prelude.{◌≡◌, refl};
ghost use Rattle.sv_parse_expr.specs.ExprWords.{elem, side, brackets, firsts, dimension_tree, plain_kind_tree, plain_tree, type_tree, seen, Reads, May};
ghost use Rattle.sv_ast.specs.Syntax as g;

use crate::reader::{Exprs, NestedExprs};
use sqlite_items::Boxed;
use sv_ast::{Dimension, Expr, Plain, PlainKind, TypeExpr};
use sv_read::Either::{self, First, Second};
use sv_read::words::{
    ADDRESS, ARROW, DOT, ELEMENTARY, L_BRACKET, L_PAREN, MAPPING, PAYABLE, R_BRACKET, R_PAREN,
    STRING,
};
use sv_read::{Begins, Class, Cursor, Kept, Parse, ParseError, Word, behind, placed};
use sv_text::Name;

/// A type, as `uint256[3][]`.
pub fn type_rule<N: NestedExprs>(
    reader: &Exprs<N>,
    cursor: &mut Cursor<'_>,
) -> Result<TypeExpr, ParseError>
    requires { May N.nests N.floor reader.now.nested (g.rules g.type) cursor.old.at }
    ensures { Reads type_tree (side g.type) cursor.old result cursor.new }
{
    let ((plain, dimensions), span, place) = placed(reader, cursor)?;
    Ok(TypeExpr {
        plain,
        dimensions,
        span,
        place,
    })
}

/// A type in an expression, or in another type.
impl<N: NestedExprs> Parse<Exprs<N>> for TypeExpr {
    ghost part = { side g.type };

    ghost tree = { type_tree };

    fn parse(reader: &Exprs<N>, cursor: &mut Cursor<'_>) -> Result<TypeExpr, ParseError> {
        reader.nested.type_expr(cursor)
    }
}

/// What a type may begin with.
#[rattlefmt::skip]
const BEGINS_TYPE: [Class; 8] = [
    Class::Id, Class::Elementary, Class::Address, Class::Error, Class::Mapping, Class::Revert,
    Class::String, Class::Value,
];

/// Whether the next token begins a type.
pub fn sees_type(cursor: &Cursor<'_>) -> bool
    ensures { result ≡ elem (seen cursor.now) (firsts g.type) }
{
    cursor.sees_any(&BEGINS_TYPE)
}

/// The brackets of an array, as `[3]` or `[]`.
impl<N: NestedExprs> Parse<Exprs<N>> for Dimension {
    ghost part = { brackets };

    ghost tree = { dimension_tree };

    fn parse(reader: &Exprs<N>, cursor: &mut Cursor<'_>) -> Result<Dimension, ParseError> {
        type Parts = (Word<L_BRACKET>, Option<Expr>, Word<R_BRACKET>);
        let (_, length, _) = <Parts as Parse<Exprs<N>>>::parse(reader, cursor)?;
        Ok(Dimension { length })
    }
}

impl<N: NestedExprs> Begins<Exprs<N>> for Dimension {
    fn begins(cursor: &Cursor<'_>) -> bool {
        cursor.sees_any(&[Class::LBracket])
    }

    ghost filled = { refl };
}

/// A type without brackets.
impl<N: NestedExprs> Parse<Exprs<N>> for Plain {
    ghost part = { side g.plain };

    ghost tree = { plain_tree };

    fn parse(reader: &Exprs<N>, cursor: &mut Cursor<'_>) -> Result<Plain, ParseError> {
        let (kind, span, place) = placed(reader, cursor)?;
        Ok(Plain { kind, span, place })
    }
}

impl<N: NestedExprs> Parse<Exprs<N>> for PlainKind {
    ghost part = { g.rules g.plain };

    ghost tree = { plain_kind_tree };

    fn parse(reader: &Exprs<N>, cursor: &mut Cursor<'_>) -> Result<PlainKind, ParseError> {
        type Address = (Word<ADDRESS>, Option<Word<PAYABLE>>);
        type Named = (Name, Option<(Word<DOT>, Name)>);
        type Value = (Boxed<TypeExpr>, Option<Name>, Word<R_PAREN>);
        type Key = (Boxed<TypeExpr>, Option<Name>, Word<ARROW>, Value);
        type Mapping = (Word<MAPPING>, Word<L_PAREN>, Key);
        type Told = Either<Word<STRING>, Either<Named, Mapping>>;
        type Forms = Either<Kept<ELEMENTARY>, Either<Address, Told>>;
        match <Forms as Parse<Exprs<N>>>::parse(reader, cursor)? {
            First(elementary) => Ok(PlainKind::Elementary(elementary.0)),
            Second(First((_, payable))) => Ok(PlainKind::Address {
                is_payable: payable.is_some(),
            }),
            Second(Second(First(_))) => Ok(PlainKind::String),
            Second(Second(Second(First((name, member))))) => Ok(PlainKind::Named {
                name,
                member: behind(member),
            }),
            Second(Second(Second(Second((_, _, (key, key_name, _, value)))))) => {
                Ok(PlainKind::Mapping {
                    key,
                    key_name,
                    value: value.0,
                    value_name: value.1,
                })
            }
        }
    }
}
