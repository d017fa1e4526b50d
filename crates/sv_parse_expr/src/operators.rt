//! Operators and their operands.
#![tactic(auto, using(sv_read::proofs::Reading::fails_memory))]

ghost use Rattle.std.specs.Prelude.{◌≡◌, refl};
ghost use Rattle.sv_parse_expr.specs.ExprWords.{elem, side, quoted, ◌∣◌, ◌⊙◌, and_tree, arms_tree, expr_tree, less_op_tree, less_rest_tree, less_tree, or_tree, power_tree, prod_op_tree, prod_rest_tree, prod_tree, same_op_tree, same_rest_tree, same_tree, sum_op_tree, sum_rest_tree, sum_tree, term_kind_tree, term_tree, unary_op_tree, unary_operand_tree, unary_tree, firsts, seen, Reads, May};
ghost use Rattle.sv_ast.specs.declared.class.Class.TheVariants as k;
ghost use Rattle.sv_ast.specs.Syntax as g;

use crate::reader::{Exprs, NestedExprs};
use sqlite_items::{Boxed, Items};
use sv_ast::{
    And, Arms, Expr, Less, LessOp, LessRest, Or, Post, Power, Prod, ProdOp, ProdRest, Same, SameOp,
    SameRest, Sum, SumOp, SumRest, Term, TermKind, Unary, UnaryOp, UnaryOperand,
};
use sv_read::Either::{self, First, Second};
use sv_read::words::{
    AND_AND, AT_LEAST, AT_MOST, BANG, COLON, DECREMENT, DIVIDE, GREATER, INCREMENT, LESS, MINUS,
    OR_OR, PLUS, POWER, QUESTION, REMAINDER, SAME, TIMES, UNEQUAL,
};
use sv_read::{Begins, Class, Cursor, Extent, Led, Parse, ParseError, Word, behind, placed};

/// An expression, as `a` or `a ? b : c`.
pub fn expr_rule<N: NestedExprs>(
    reader: &Exprs<N>,
    cursor: &mut Cursor<'_>,
) -> Result<Expr, ParseError>
    requires { May N.nests N.floor reader.now.nested (g.rules g.expr) cursor.old.at }
    ensures { Reads expr_tree (side g.expr) cursor.old result cursor.new }
{
    let ((first, arms), span, place) = placed(reader, cursor)?;
    Ok(Expr {
        first,
        arms,
        span,
        place,
    })
}

/// An expression in another one.
impl<N: NestedExprs> Parse<Exprs<N>> for Expr {
    ghost part = { side g.expr };

    ghost tree = { expr_tree };

    fn parse(reader: &Exprs<N>, cursor: &mut Cursor<'_>) -> Result<Expr, ParseError> {
        reader.nested.expr(cursor)
    }
}

/// What an expression may begin with.
#[rattlefmt::skip]
const BEGINS_EXPR: [Class; 21] = [
    Class::Id, Class::Number, Class::Hexadecimal, Class::StringLiteral, Class::Elementary,
    Class::Address, Class::Error, Class::False, Class::New, Class::Payable, Class::Revert,
    Class::Super, Class::This, Class::True, Class::Type, Class::Value, Class::LParen, Class::Minus,
    Class::Increment, Class::Decrement, Class::Bang,
];

/// Whether the next token begins an expression.
pub fn sees_expr(cursor: &Cursor<'_>) -> bool
    ensures { result ≡ elem (seen cursor.now) (firsts g.expr) }
{
    cursor.sees_any(&BEGINS_EXPR)
}

impl<N: NestedExprs> Begins<Exprs<N>> for Expr {
    fn begins(cursor: &Cursor<'_>) -> bool {
        sees_expr(cursor)
    }

    ghost filled = { refl };
}

/// The two arms of a choice, as `? b : c`.
impl<N: NestedExprs> Parse<Exprs<N>> for Arms {
    ghost part = { quoted k.Question ⊙ side g.expr ⊙ quoted k.Colon ⊙ side g.expr };

    ghost tree = { arms_tree };

    fn parse(reader: &Exprs<N>, cursor: &mut Cursor<'_>) -> Result<Arms, ParseError> {
        type Parts = (Word<QUESTION>, Boxed<Expr>, Word<COLON>, Boxed<Expr>);
        let (_, if_true, _, if_false) = <Parts as Parse<Exprs<N>>>::parse(reader, cursor)?;
        Ok(Arms { if_true, if_false })
    }
}

impl<N: NestedExprs> Begins<Exprs<N>> for Arms {
    fn begins(cursor: &Cursor<'_>) -> bool {
        cursor.sees_any(&[Class::Question])
    }

    ghost filled = { refl };
}

/// Operands with `||` between them.
impl<N: NestedExprs> Parse<Exprs<N>> for Or {
    ghost part = { side g.or };

    ghost tree = { or_tree };

    fn parse(reader: &Exprs<N>, cursor: &mut Cursor<'_>) -> Result<Or, ParseError> {
        type Parts = (And, Led<OR_OR, And>);
        let ((first, rest), span, place) = placed::<_, Parts>(reader, cursor)?;
        Ok(Or {
            first,
            rest: rest.0,
            span,
            place,
        })
    }
}

/// Operands with `&&` between them.
impl<N: NestedExprs> Parse<Exprs<N>> for And {
    ghost part = { side g.and };

    ghost tree = { and_tree };

    fn parse(reader: &Exprs<N>, cursor: &mut Cursor<'_>) -> Result<And, ParseError> {
        type Parts = (Same, Led<AND_AND, Same>);
        let ((first, rest), span, place) = placed::<_, Parts>(reader, cursor)?;
        Ok(And {
            first,
            rest: rest.0,
            span,
            place,
        })
    }
}

/// Operands with equalities between them.
impl<N: NestedExprs> Parse<Exprs<N>> for Same {
    ghost part = { side g.same };

    ghost tree = { same_tree };

    fn parse(reader: &Exprs<N>, cursor: &mut Cursor<'_>) -> Result<Same, ParseError> {
        let ((first, rest), span, place) = placed(reader, cursor)?;
        Ok(Same {
            first,
            rest,
            span,
            place,
        })
    }
}

impl<N: NestedExprs> Parse<Exprs<N>> for SameRest {
    ghost part = { (quoted k.Same ∣ quoted k.Unequal) ⊙ side g.less };

    ghost tree = { same_rest_tree };

    fn parse(reader: &Exprs<N>, cursor: &mut Cursor<'_>) -> Result<SameRest, ParseError> {
        let (op, operand) = Parse::parse(reader, cursor)?;
        Ok(SameRest { op, operand })
    }
}

impl<N: NestedExprs> Begins<Exprs<N>> for SameRest {
    fn begins(cursor: &Cursor<'_>) -> bool {
        cursor.sees_any(&[Class::Same, Class::Unequal])
    }

    ghost filled = { refl };
}

/// An equality.
impl<N: NestedExprs> Parse<Exprs<N>> for SameOp {
    ghost part = { quoted k.Same ∣ quoted k.Unequal };

    ghost tree = { same_op_tree };

    fn parse(reader: &Exprs<N>, cursor: &mut Cursor<'_>) -> Result<SameOp, ParseError> {
        type Forms = Either<Word<SAME>, Word<UNEQUAL>>;
        match <Forms as Parse<Exprs<N>>>::parse(reader, cursor)? {
            First(_) => Ok(SameOp::Equal),
            Second(_) => Ok(SameOp::Unequal),
        }
    }
}

/// Operands with comparisons between them.
impl<N: NestedExprs> Parse<Exprs<N>> for Less {
    ghost part = { side g.less };

    ghost tree = { less_tree };

    fn parse(reader: &Exprs<N>, cursor: &mut Cursor<'_>) -> Result<Less, ParseError> {
        let ((first, rest), span, place) = placed(reader, cursor)?;
        Ok(Less {
            first,
            rest,
            span,
            place,
        })
    }
}

impl<N: NestedExprs> Parse<Exprs<N>> for LessRest {
    ghost part = { (quoted k.Less ∣ quoted k.Greater ∣ quoted k.AtMost ∣ quoted k.AtLeast) ⊙ side g.sum };

    ghost tree = { less_rest_tree };

    fn parse(reader: &Exprs<N>, cursor: &mut Cursor<'_>) -> Result<LessRest, ParseError> {
        let (op, operand) = Parse::parse(reader, cursor)?;
        Ok(LessRest { op, operand })
    }
}

impl<N: NestedExprs> Begins<Exprs<N>> for LessRest {
    fn begins(cursor: &Cursor<'_>) -> bool {
        cursor.sees_any(&[Class::Less, Class::Greater, Class::AtMost, Class::AtLeast])
    }

    ghost filled = { refl };
}

/// A comparison.
impl<N: NestedExprs> Parse<Exprs<N>> for LessOp {
    ghost part = { quoted k.Less ∣ quoted k.Greater ∣ quoted k.AtMost ∣ quoted k.AtLeast };

    ghost tree = { less_op_tree };

    fn parse(reader: &Exprs<N>, cursor: &mut Cursor<'_>) -> Result<LessOp, ParseError> {
        type Forms = Either<
            Word<LESS>,
            Either<Word<GREATER>, Either<Word<AT_MOST>, Word<AT_LEAST>>>,
        >;
        match <Forms as Parse<Exprs<N>>>::parse(reader, cursor)? {
            First(_) => Ok(LessOp::Less),
            Second(First(_)) => Ok(LessOp::Greater),
            Second(Second(First(_))) => Ok(LessOp::AtMost),
            Second(Second(Second(_))) => Ok(LessOp::AtLeast),
        }
    }
}

/// Operands with `+` and `-` between them.
impl<N: NestedExprs> Parse<Exprs<N>> for Sum {
    ghost part = { side g.sum };

    ghost tree = { sum_tree };

    fn parse(reader: &Exprs<N>, cursor: &mut Cursor<'_>) -> Result<Sum, ParseError> {
        let ((first, rest), span, place) = placed(reader, cursor)?;
        Ok(Sum {
            first,
            rest,
            span,
            place,
        })
    }
}

impl<N: NestedExprs> Parse<Exprs<N>> for SumRest {
    ghost part = { (quoted k.Plus ∣ quoted k.Minus) ⊙ side g.prod };

    ghost tree = { sum_rest_tree };

    fn parse(reader: &Exprs<N>, cursor: &mut Cursor<'_>) -> Result<SumRest, ParseError> {
        let (op, operand) = Parse::parse(reader, cursor)?;
        Ok(SumRest { op, operand })
    }
}

impl<N: NestedExprs> Begins<Exprs<N>> for SumRest {
    fn begins(cursor: &Cursor<'_>) -> bool {
        cursor.sees_any(&[Class::Plus, Class::Minus])
    }

    ghost filled = { refl };
}

/// `+` or `-`.
impl<N: NestedExprs> Parse<Exprs<N>> for SumOp {
    ghost part = { quoted k.Plus ∣ quoted k.Minus };

    ghost tree = { sum_op_tree };

    fn parse(reader: &Exprs<N>, cursor: &mut Cursor<'_>) -> Result<SumOp, ParseError> {
        type Forms = Either<Word<PLUS>, Word<MINUS>>;
        match <Forms as Parse<Exprs<N>>>::parse(reader, cursor)? {
            First(_) => Ok(SumOp::Add),
            Second(_) => Ok(SumOp::Subtract),
        }
    }
}

/// Operands with `*`, `/` and `%` between them.
impl<N: NestedExprs> Parse<Exprs<N>> for Prod {
    ghost part = { side g.prod };

    ghost tree = { prod_tree };

    fn parse(reader: &Exprs<N>, cursor: &mut Cursor<'_>) -> Result<Prod, ParseError> {
        let ((first, rest), span, place) = placed(reader, cursor)?;
        Ok(Prod {
            first,
            rest,
            span,
            place,
        })
    }
}

impl<N: NestedExprs> Parse<Exprs<N>> for ProdRest {
    ghost part = { (quoted k.Times ∣ quoted k.Divide ∣ quoted k.Remainder) ⊙ side g.term };

    ghost tree = { prod_rest_tree };

    fn parse(reader: &Exprs<N>, cursor: &mut Cursor<'_>) -> Result<ProdRest, ParseError> {
        let (op, operand) = Parse::parse(reader, cursor)?;
        Ok(ProdRest { op, operand })
    }
}

impl<N: NestedExprs> Begins<Exprs<N>> for ProdRest {
    fn begins(cursor: &Cursor<'_>) -> bool {
        cursor.sees_any(&[Class::Times, Class::Divide, Class::Remainder])
    }

    ghost filled = { refl };
}

/// `*`, `/` or `%`.
impl<N: NestedExprs> Parse<Exprs<N>> for ProdOp {
    ghost part = { quoted k.Times ∣ quoted k.Divide ∣ quoted k.Remainder };

    ghost tree = { prod_op_tree };

    fn parse(reader: &Exprs<N>, cursor: &mut Cursor<'_>) -> Result<ProdOp, ParseError> {
        type Forms = Either<Word<TIMES>, Either<Word<DIVIDE>, Word<REMAINDER>>>;
        match <Forms as Parse<Exprs<N>>>::parse(reader, cursor)? {
            First(_) => Ok(ProdOp::Multiply),
            Second(First(_)) => Ok(ProdOp::Divide),
            Second(Second(_)) => Ok(ProdOp::Remainder),
        }
    }
}

/// An operand of a product, as `-a` or `a ** b`.
impl<N: NestedExprs> Parse<Exprs<N>> for Term {
    ghost part = { side g.term };

    ghost tree = { term_tree };

    fn parse(reader: &Exprs<N>, cursor: &mut Cursor<'_>) -> Result<Term, ParseError> {
        let from = cursor.at();
        let kind = term_kind(reader, cursor)?;
        let Extent { span, place } = cursor.extent(from);
        Ok(Term { kind, span, place })
    }
}

/// An operator with its operand, or a power. Neither is nested here, so that their rules are read.
fn term_kind<N: NestedExprs>(
    reader: &Exprs<N>,
    cursor: &mut Cursor<'_>,
) -> Result<TermKind, ParseError>
    requires { May N.nests N.floor reader.now.nested (side g.term) cursor.old.at }
    ensures { Reads term_kind_tree (g.rules g.term) cursor.old result cursor.new }
{
    if <Unary as Begins<Exprs<N>>>::begins(cursor) {
        Ok(TermKind::Unary(unary_rule(reader, cursor)?))
    } else {
        Ok(TermKind::Power(power_rule(reader, cursor)?))
    }
}

/// An operator and the operand that follows it.
pub fn unary_rule<N: NestedExprs>(
    reader: &Exprs<N>,
    cursor: &mut Cursor<'_>,
) -> Result<Unary, ParseError>
    requires { May N.nests N.floor reader.now.nested (g.rules g.unary) cursor.old.at }
    ensures { Reads unary_tree (side g.unary) cursor.old result cursor.new }
{
    let ((op, operand), span, place) = placed(reader, cursor)?;
    Ok(Unary {
        op,
        operand,
        span,
        place,
    })
}

impl<N: NestedExprs> Parse<Exprs<N>> for Unary {
    ghost part = { side g.unary };

    ghost tree = { unary_tree };

    fn parse(reader: &Exprs<N>, cursor: &mut Cursor<'_>) -> Result<Unary, ParseError> {
        reader.nested.unary(cursor)
    }
}

impl<N: NestedExprs> Begins<Exprs<N>> for Unary {
    fn begins(cursor: &Cursor<'_>) -> bool {
        cursor.sees_any(&[
            Class::Minus,
            Class::Increment,
            Class::Decrement,
            Class::Bang,
        ])
    }

    ghost filled = { refl };
}

impl<N: NestedExprs> Parse<Exprs<N>> for UnaryOperand {
    ghost part = { side g.unary ∣ side g.post };

    ghost tree = { unary_operand_tree };

    fn parse(reader: &Exprs<N>, cursor: &mut Cursor<'_>) -> Result<UnaryOperand, ParseError> {
        type Forms = Either<Boxed<Unary>, Post>;
        match <Forms as Parse<Exprs<N>>>::parse(reader, cursor)? {
            First(unary) => Ok(UnaryOperand::Unary(unary)),
            Second(post) => Ok(UnaryOperand::Post(post)),
        }
    }
}

/// An operator that stands in front of its operand.
impl<N: NestedExprs> Parse<Exprs<N>> for UnaryOp {
    ghost part = { quoted k.Minus ∣ quoted k.Bang ∣ quoted k.Increment ∣ quoted k.Decrement };

    ghost tree = { unary_op_tree };

    fn parse(reader: &Exprs<N>, cursor: &mut Cursor<'_>) -> Result<UnaryOp, ParseError> {
        type Step = Either<Word<INCREMENT>, Word<DECREMENT>>;
        type Forms = Either<Word<MINUS>, Either<Word<BANG>, Step>>;
        match <Forms as Parse<Exprs<N>>>::parse(reader, cursor)? {
            First(_) => Ok(UnaryOp::Negate),
            Second(First(_)) => Ok(UnaryOp::Not),
            Second(Second(First(_))) => Ok(UnaryOp::Increment),
            Second(Second(Second(_))) => Ok(UnaryOp::Decrement),
        }
    }
}

/// A base with an exponent or without one, as `a ** b`.
pub fn power_rule<N: NestedExprs>(
    reader: &Exprs<N>,
    cursor: &mut Cursor<'_>,
) -> Result<Power, ParseError>
    requires { May N.nests N.floor reader.now.nested (g.rules g.power) cursor.old.at }
    ensures { Reads power_tree (side g.power) cursor.old result cursor.new }
{
    type Parts = (Post, Option<(Word<POWER>, Boxed<Power>)>);
    let ((base, exponent), span, place) = placed::<_, Parts>(reader, cursor)?;
    Ok(Power {
        base,
        exponent: behind(exponent),
        span,
        place,
    })
}

impl<N: NestedExprs> Parse<Exprs<N>> for Power {
    ghost part = { side g.power };

    ghost tree = { power_tree };

    fn parse(reader: &Exprs<N>, cursor: &mut Cursor<'_>) -> Result<Power, ParseError> {
        reader.nested.power(cursor)
    }
}
