//! An expression of the syntax tree, seen by its form and without the levels of the grammar that add nothing.
#![tactic(auto)]

ghost use Rattle.std.specs.Prelude.{◌≡◌};
ghost use Rattle.sv_plain.specs.ExprFolds.{plain_expr, plain_or, plain_and, plain_same, plain_less, plain_sum, plain_prod, plain_term, plain_unary, plain_power, plain_post, plain_atom, plain_unary_operand, same_op, less_op, sum_op, prod_op};
ghost use Rattle.sv_plain.specs.ShownExprs.{expr_of, shown, has_more, rest_of, operations};

use crate::operator::Operator;
use crate::spot::Spot;
use sqlite_items::Items;
use sv_ast::{
    And, Atom, AtomKind, Expr, Less, LessOp, LessRest, Or, Post, Power, Prod, ProdOp, ProdRest,
    Same, SameOp, SameRest, Suffix, Sum, SumOp, SumRest, Term, TermKind, TypeExpr, Unary, UnaryOp,
    UnaryOperand, Unit10,
};
use sv_text::Name;

/// An expression at one of the levels of the grammar.
#[derive(Clone, Copy)]
pub enum Node<'a> {
    Expr(&'a Expr),
    Or(&'a Or),
    And(&'a And),
    Same(&'a Same),
    Less(&'a Less),
    Sum(&'a Sum),
    Prod(&'a Prod),
    Term(&'a Term),
    Unary(&'a Unary),
    Power(&'a Power),
    Post(&'a Post),
    Atom(&'a Atom),
}

/// The operands behind the first one of a level, each with its operator.
#[derive(Clone, Copy)]
pub enum Rest<'a> {
    Or(&'a [And]),
    And(&'a [Same]),
    Same(&'a [SameRest]),
    Less(&'a [LessRest]),
    Sum(&'a [SumRest]),
    Prod(&'a [ProdRest]),
}

/// Which form an expression has. Its parts are references into the syntax tree.
#[derive(Clone, Copy)]
pub enum Kind<'a> {
    /// `a ? b : c`.
    Choice {
        test: &'a Or,
        if_true: &'a Expr,
        if_false: &'a Expr,
    },
    /// Two operands or more of one level, as `a + b - c`, which group to the left.
    Chain {
        first: Node<'a>,
        rest: Rest<'a>,
    },
    /// An operator and what it stands in front of, as `-a`.
    Prefix {
        op: UnaryOp,
        operand: &'a UnaryOperand,
    },
    /// `a ** b`.
    Power {
        base: &'a Post,
        exponent: &'a Power,
    },
    /// An atom with one suffix or more, as `a.b[i](x)`.
    Applied {
        head: &'a Atom,
        suffixes: &'a [Suffix],
    },
    /// A decimal number, as `12` or `3 days`.
    Number {
        digits: &'a Name,
        unit: &'a Option<Unit10>,
    },
    /// A hexadecimal number, as `0xff`.
    Hexadecimal(&'a Name),
    /// A string with its quotes, as `"text"`.
    Text(&'a Name),
    /// `true` or `false`.
    Truth(bool),
    /// A name, as `total`.
    Name(&'a Name),
    /// An elementary type, as the `uint8` of `uint8(a)`.
    Elementary(&'a Name),
    /// `address`, as in `address(a)`.
    Address,
    /// `payable`, as in `payable(a)`.
    Payable,
    /// A type to ask about, as `type(uint8)`.
    OfType(&'a TypeExpr),
    /// Something new of a type, as `new uint256[]`.
    New(&'a TypeExpr),
    /// `super`.
    Super,
    /// `this`.
    This,
    /// An expression in parentheses, as `(a + b)`.
    Paren(&'a Expr),
}

/// An expression: where it lies, and its form.
#[derive(Clone, Copy)]
pub struct View<'a> {
    pub spot: Spot,
    pub kind: Kind<'a>,
}

/// Whether there are items.
fn more<X>(items: &Items<X>) -> bool
    ensures { result ≡ has_more items.now }
{
    items.len() != 0
}

impl<'a> Node<'a> {
    /// Where it lies, and its form.
    pub fn view(self) -> View<'a>
        ensures { expr_of self.entry ≡ shown result }
    {
        match self {
            Node::Expr(e) => view_expr(e),
            Node::Or(e) => view_or(e),
            Node::And(e) => view_and(e),
            Node::Same(e) => view_same(e),
            Node::Less(e) => view_less(e),
            Node::Sum(e) => view_sum(e),
            Node::Prod(e) => view_prod(e),
            Node::Term(e) => view_term(e),
            Node::Unary(e) => view_unary(e),
            Node::Power(e) => view_power(e),
            Node::Post(e) => view_post(e),
            Node::Atom(e) => view_atom(e),
        }
    }
}

fn view_expr(e: &Expr) -> View<'_>
    ensures { plain_expr e.now ≡ shown result }
{
    match &e.arms {
        None => view_or(e.first.get()),
        Some(arms) => View {
            spot: Spot {
                span: e.span,
                place: e.place,
            },
            kind: Kind::Choice {
                test: e.first.get(),
                if_true: arms.if_true.get(),
                if_false: arms.if_false.get(),
            },
        },
    }
}

fn view_or(e: &Or) -> View<'_>
    ensures { plain_or e.now ≡ shown result }
{
    if !more(&e.rest) {
        return view_and(&e.first);
    }
    View {
        spot: Spot {
            span: e.span,
            place: e.place,
        },
        kind: Kind::Chain {
            first: Node::And(&e.first),
            rest: Rest::Or(e.rest.as_slice()),
        },
    }
}

fn view_and(e: &And) -> View<'_>
    ensures { plain_and e.now ≡ shown result }
{
    if !more(&e.rest) {
        return view_same(&e.first);
    }
    View {
        spot: Spot {
            span: e.span,
            place: e.place,
        },
        kind: Kind::Chain {
            first: Node::Same(&e.first),
            rest: Rest::And(e.rest.as_slice()),
        },
    }
}

fn view_same(e: &Same) -> View<'_>
    ensures { plain_same e.now ≡ shown result }
{
    if !more(&e.rest) {
        return view_less(&e.first);
    }
    View {
        spot: Spot {
            span: e.span,
            place: e.place,
        },
        kind: Kind::Chain {
            first: Node::Less(&e.first),
            rest: Rest::Same(e.rest.as_slice()),
        },
    }
}

fn view_less(e: &Less) -> View<'_>
    ensures { plain_less e.now ≡ shown result }
{
    if !more(&e.rest) {
        return view_sum(&e.first);
    }
    View {
        spot: Spot {
            span: e.span,
            place: e.place,
        },
        kind: Kind::Chain {
            first: Node::Sum(&e.first),
            rest: Rest::Less(e.rest.as_slice()),
        },
    }
}

fn view_sum(e: &Sum) -> View<'_>
    ensures { plain_sum e.now ≡ shown result }
{
    if !more(&e.rest) {
        return view_prod(&e.first);
    }
    View {
        spot: Spot {
            span: e.span,
            place: e.place,
        },
        kind: Kind::Chain {
            first: Node::Prod(&e.first),
            rest: Rest::Sum(e.rest.as_slice()),
        },
    }
}

fn view_prod(e: &Prod) -> View<'_>
    ensures { plain_prod e.now ≡ shown result }
{
    if !more(&e.rest) {
        return view_term(&e.first);
    }
    View {
        spot: Spot {
            span: e.span,
            place: e.place,
        },
        kind: Kind::Chain {
            first: Node::Term(&e.first),
            rest: Rest::Prod(e.rest.as_slice()),
        },
    }
}

fn view_term(e: &Term) -> View<'_>
    ensures { plain_term e.now ≡ shown result }
{
    match &e.kind {
        TermKind::Unary(e) => view_unary(e),
        TermKind::Power(e) => view_power(e),
    }
}

fn view_unary(e: &Unary) -> View<'_>
    ensures { plain_unary e.now ≡ shown result }
{
    View {
        spot: Spot {
            span: e.span,
            place: e.place,
        },
        kind: Kind::Prefix {
            op: e.op,
            operand: &e.operand,
        },
    }
}

fn view_power(e: &Power) -> View<'_>
    ensures { plain_power e.now ≡ shown result }
{
    match &e.exponent {
        None => view_post(&e.base),
        Some(exponent) => View {
            spot: Spot {
                span: e.span,
                place: e.place,
            },
            kind: Kind::Power {
                base: &e.base,
                exponent: exponent.get(),
            },
        },
    }
}

fn view_post(e: &Post) -> View<'_>
    ensures { plain_post e.now ≡ shown result }
{
    if !more(&e.suffixes) {
        return view_atom(&e.atom);
    }
    View {
        spot: Spot {
            span: e.span,
            place: e.place,
        },
        kind: Kind::Applied {
            head: &e.atom,
            suffixes: e.suffixes.as_slice(),
        },
    }
}

fn view_atom(e: &Atom) -> View<'_>
    ensures { plain_atom e.now ≡ shown result }
{
    let kind = match &e.kind {
        AtomKind::Number { digits, unit } => Kind::Number { digits, unit },
        AtomKind::Hexadecimal(n) => Kind::Hexadecimal(n),
        AtomKind::String(n) => Kind::Text(n),
        AtomKind::True => Kind::Truth(true),
        AtomKind::False => Kind::Truth(false),
        AtomKind::Name(n) => Kind::Name(n),
        AtomKind::Elementary(n) => Kind::Elementary(n),
        AtomKind::Address => Kind::Address,
        AtomKind::Payable => Kind::Payable,
        AtomKind::Type(t) => Kind::OfType(t.get()),
        AtomKind::New(t) => Kind::New(t.get()),
        AtomKind::Super => Kind::Super,
        AtomKind::This => Kind::This,
        AtomKind::Paren(e) => Kind::Paren(e.get()),
    };
    View {
        spot: Spot {
            span: e.span,
            place: e.place,
        },
        kind,
    }
}

/// What an operator in front is applied to.
pub fn operand_of(e: &UnaryOperand) -> Node<'_>
    ensures { expr_of result ≡ plain_unary_operand e.now }
{
    match e {
        UnaryOperand::Unary(e) => Node::Unary(e.get()),
        UnaryOperand::Post(e) => Node::Post(e),
    }
}

/// An operand with its operator, and what is behind it.
#[derive(Clone, Copy)]
pub struct Operation<'a> {
    pub op: Operator,
    pub operand: Node<'a>,
    pub rest: Rest<'a>,
}

impl<'a> Rest<'a> {
    /// The first operand, if there is one.
    pub fn split(self) -> Option<Operation<'a>>
        ensures { rest_of self.entry ≡ operations result }
    {
        match self {
            Rest::Or(r) => {
                let (x, more) = r.split_first()?;
                Some(Operation {
                    op: Operator::Or,
                    operand: Node::And(x),
                    rest: Rest::Or(more),
                })
            }
            Rest::And(r) => {
                let (x, more) = r.split_first()?;
                Some(Operation {
                    op: Operator::And,
                    operand: Node::Same(x),
                    rest: Rest::And(more),
                })
            }
            Rest::Same(r) => {
                let (x, more) = r.split_first()?;
                Some(Operation {
                    op: same_op(x.op),
                    operand: Node::Less(&x.operand),
                    rest: Rest::Same(more),
                })
            }
            Rest::Less(r) => {
                let (x, more) = r.split_first()?;
                Some(Operation {
                    op: less_op(x.op),
                    operand: Node::Sum(&x.operand),
                    rest: Rest::Less(more),
                })
            }
            Rest::Sum(r) => {
                let (x, more) = r.split_first()?;
                Some(Operation {
                    op: sum_op(x.op),
                    operand: Node::Prod(&x.operand),
                    rest: Rest::Sum(more),
                })
            }
            Rest::Prod(r) => {
                let (x, more) = r.split_first()?;
                Some(Operation {
                    op: prod_op(x.op),
                    operand: Node::Term(&x.operand),
                    rest: Rest::Prod(more),
                })
            }
        }
    }
}

fn same_op(op: SameOp) -> Operator
    ensures { result ≡ same_op op }
{
    match op {
        SameOp::Equal => Operator::Equal,
        SameOp::Unequal => Operator::Unequal,
    }
}

fn less_op(op: LessOp) -> Operator
    ensures { result ≡ less_op op }
{
    match op {
        LessOp::Less => Operator::Less,
        LessOp::Greater => Operator::Greater,
        LessOp::AtMost => Operator::AtMost,
        LessOp::AtLeast => Operator::AtLeast,
    }
}

fn sum_op(op: SumOp) -> Operator
    ensures { result ≡ sum_op op }
{
    match op {
        SumOp::Add => Operator::Add,
        SumOp::Subtract => Operator::Subtract,
    }
}

fn prod_op(op: ProdOp) -> Operator
    ensures { result ≡ prod_op op }
{
    match op {
        ProdOp::Multiply => Operator::Multiply,
        ProdOp::Divide => Operator::Divide,
        ProdOp::Remainder => Operator::Remainder,
    }
}
