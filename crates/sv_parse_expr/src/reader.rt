//! What nests is read by functions that hand themselves to the readers of their parts as values, so that each of these is
//! proved by itself.
#![tactic(auto, using(sv_read::proofs::Reading::fails_memory))]

ghost use Rattle.std.specs.Prelude.{ℕ, true};
ghost use Rattle.sv_parse_expr.specs.ExprWords.{side, args_tree, expr_tree, power_tree, type_tree, unary_tree, MayRead, Nests, Reads, inner};
ghost use Rattle.sv_ast.specs.Syntax as g;

use crate::operators::{expr_rule, power_rule, unary_rule};
use crate::types::type_rule;
use sv_ast::{Args, Expr, Power, TypeExpr, Unary};
use sv_read::{Cursor, Nested, Parse, ParseError};

/// Who reads what nests in expressions, behind a position.
pub trait NestedExprs {
    ghost floor: { Self → ℕ };

    ghost nests: { Self → Type 0 };

    /// An expression in another one, or in a type.
    fn expr(&self, cursor: &mut Cursor<'_>) -> Result<Expr, ParseError>
        requires { MayRead (nests self.now) (floor self.now) true cursor.old.at }
        ensures { Reads expr_tree (side g.expr) cursor.old result cursor.new };

    /// A type in an expression, or in another type.
    fn type_expr(&self, cursor: &mut Cursor<'_>) -> Result<TypeExpr, ParseError>
        requires { MayRead (nests self.now) (floor self.now) true cursor.old.at }
        ensures { Reads type_tree (side g.type) cursor.old result cursor.new };

    /// An operand of an operator in front, which has such an operator too.
    fn unary(&self, cursor: &mut Cursor<'_>) -> Result<Unary, ParseError>
        requires { MayRead (nests self.now) (floor self.now) true cursor.old.at }
        ensures { Reads unary_tree (side g.unary) cursor.old result cursor.new };

    /// An exponent.
    fn power(&self, cursor: &mut Cursor<'_>) -> Result<Power, ParseError>
        requires { MayRead (nests self.now) (floor self.now) true cursor.old.at }
        ensures { Reads power_tree (side g.power) cursor.old result cursor.new };
}

/// The reader of expressions and of their parts, with who reads what nests in these.
#[derive(Clone, Copy)]
pub struct Exprs<N> {
    pub nested: N,
}

impl<N: NestedExprs> Nested for Exprs<N> {
    ghost inner = { inner };

    ghost floor = { λ r. N.floor r.nested };

    ghost nests = { λ r. N.nests r.nested };
}

/// Functions that read behind the position `floor`.
#[derive(Clone, Copy)]
pub struct Behind<E, T, U, P> {
    expr: E,
    type_expr: T,
    unary: U,
    power: P,
    floor: usize,
}

impl<E, T, U, P> NestedExprs for Behind<E, T, U, P>
where
    E: Fn(&mut Cursor<'_>) -> Result<Expr, ParseError>,
    T: Fn(&mut Cursor<'_>) -> Result<TypeExpr, ParseError>,
    U: Fn(&mut Cursor<'_>) -> Result<Unary, ParseError>,
    P: Fn(&mut Cursor<'_>) -> Result<Power, ParseError>,
{
    ghost floor = { λ r. r.floor };

    ghost nests = { λ r. Nests expr_tree (side g.expr) r.floor (E.pre r.expr) (E.post r.expr) × Nests type_tree (side g.type) r.floor (T.pre r.type_expr) (T.post r.type_expr) × Nests unary_tree (side g.unary) r.floor (U.pre r.unary) (U.post r.unary) × Nests power_tree (side g.power) r.floor (P.pre r.power) (P.post r.power) };

    fn expr(&self, cursor: &mut Cursor<'_>) -> Result<Expr, ParseError> {
        (self.expr)(cursor)
    }

    fn type_expr(&self, cursor: &mut Cursor<'_>) -> Result<TypeExpr, ParseError> {
        (self.type_expr)(cursor)
    }

    fn unary(&self, cursor: &mut Cursor<'_>) -> Result<Unary, ParseError> {
        (self.unary)(cursor)
    }

    fn power(&self, cursor: &mut Cursor<'_>) -> Result<Power, ParseError> {
        (self.power)(cursor)
    }
}

/// An expression, as `a + b`.
#[cycle(nested)]
pub fn read_expr(cursor: &mut Cursor<'_>) -> Result<Expr, ParseError>
    ensures { Reads expr_tree (side g.expr) cursor.old result cursor.new }
{
    let nested = Behind {
        expr: read_expr,
        type_expr: read_type,
        unary: read_unary,
        power: read_power,
        floor: cursor.at(),
    };
    expr_rule(&Exprs { nested }, cursor)
}

/// A type, as `uint256[3][]`.
#[cycle(nested)]
pub fn read_type(cursor: &mut Cursor<'_>) -> Result<TypeExpr, ParseError>
    ensures { Reads type_tree (side g.type) cursor.old result cursor.new }
{
    let nested = Behind {
        expr: read_expr,
        type_expr: read_type,
        unary: read_unary,
        power: read_power,
        floor: cursor.at(),
    };
    type_rule(&Exprs { nested }, cursor)
}

/// An operator and its operand, as `-a`.
#[cycle(nested)]
fn read_unary(cursor: &mut Cursor<'_>) -> Result<Unary, ParseError>
    ensures { Reads unary_tree (side g.unary) cursor.old result cursor.new }
{
    let nested = Behind {
        expr: read_expr,
        type_expr: read_type,
        unary: read_unary,
        power: read_power,
        floor: cursor.at(),
    };
    unary_rule(&Exprs { nested }, cursor)
}

/// A base with an exponent or without one, as `a ** b`.
#[cycle(nested)]
fn read_power(cursor: &mut Cursor<'_>) -> Result<Power, ParseError>
    ensures { Reads power_tree (side g.power) cursor.old result cursor.new }
{
    let nested = Behind {
        expr: read_expr,
        type_expr: read_type,
        unary: read_unary,
        power: read_power,
        floor: cursor.at(),
    };
    power_rule(&Exprs { nested }, cursor)
}

/// Arguments, as `(a, b)`.
pub fn read_args(cursor: &mut Cursor<'_>) -> Result<Args, ParseError>
    ensures { Reads args_tree (side g.args) cursor.old result cursor.new }
{
    let nested = Behind {
        expr: read_expr,
        type_expr: read_type,
        unary: read_unary,
        power: read_power,
        floor: cursor.at(),
    };
    Parse::parse(&Exprs { nested }, cursor)
}
