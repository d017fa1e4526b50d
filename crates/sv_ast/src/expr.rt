use crate::post::Post;
use sqlite_items::{Boxed, Items};
use sv_text::{Place, Span};

/// An expression, as `a` or `a ? b : c`.
#[cycle(expressions)]
#[derive(Drop)]
pub struct Expr {
    pub first: Boxed<Or>,
    pub arms: Option<Arms>,
    pub span: Span,
    pub place: Place,
}

/// The two arms of a choice, as `? b : c`.
#[cycle(expressions)]
#[derive(Drop)]
pub struct Arms {
    pub if_true: Boxed<Expr>,
    pub if_false: Boxed<Expr>,
}

/// Operands with `||` between them, as `a || b`, which group to the left.
#[cycle(expressions)]
#[derive(Drop)]
pub struct Or {
    pub first: And,
    pub rest: Items<And>,
    pub span: Span,
    pub place: Place,
}

/// Operands with `&&` between them, as `a && b`, which group to the left.
#[cycle(expressions)]
#[derive(Drop)]
pub struct And {
    pub first: Same,
    pub rest: Items<Same>,
    pub span: Span,
    pub place: Place,
}

/// Operands with equalities between them, as `a == b != c`, which group to the left.
#[cycle(expressions)]
#[derive(Drop)]
pub struct Same {
    pub first: Less,
    pub rest: Items<SameRest>,
    pub span: Span,
    pub place: Place,
}

/// An equality and its right operand, as `== b`.
#[cycle(expressions)]
#[derive(Drop)]
pub struct SameRest {
    pub op: SameOp,
    pub operand: Less,
}

/// An equality.
#[derive(Clone, Copy, Debug, PartialEq, Eq)]
pub enum SameOp {
    /// `==`.
    Equal,
    /// `!=`.
    Unequal,
}

/// Operands with comparisons between them, as `a < b`, which group to the left.
#[cycle(expressions)]
#[derive(Drop)]
pub struct Less {
    pub first: Sum,
    pub rest: Items<LessRest>,
    pub span: Span,
    pub place: Place,
}

/// A comparison and its right operand, as `< b`.
#[cycle(expressions)]
#[derive(Drop)]
pub struct LessRest {
    pub op: LessOp,
    pub operand: Sum,
}

/// A comparison.
#[derive(Clone, Copy, Debug, PartialEq, Eq)]
pub enum LessOp {
    /// `<`.
    Less,
    /// `>`.
    Greater,
    /// `<=`.
    AtMost,
    /// `>=`.
    AtLeast,
}

/// Operands with `+` and `-` between them, as `a + b - c`, which group to the left.
#[cycle(expressions)]
#[derive(Drop)]
pub struct Sum {
    pub first: Prod,
    pub rest: Items<SumRest>,
    pub span: Span,
    pub place: Place,
}

/// `+` or `-` and its right operand, as `+ b`.
#[cycle(expressions)]
#[derive(Drop)]
pub struct SumRest {
    pub op: SumOp,
    pub operand: Prod,
}

/// An operator of a sum.
#[derive(Clone, Copy, Debug, PartialEq, Eq)]
pub enum SumOp {
    /// `+`.
    Add,
    /// `-`.
    Subtract,
}

/// Operands with `*`, `/` and `%` between them, as `a * b / c`, which group to the left.
#[cycle(expressions)]
#[derive(Drop)]
pub struct Prod {
    pub first: Term,
    pub rest: Items<ProdRest>,
    pub span: Span,
    pub place: Place,
}

/// `*`, `/` or `%` and its right operand, as `* b`.
#[cycle(expressions)]
#[derive(Drop)]
pub struct ProdRest {
    pub op: ProdOp,
    pub operand: Term,
}

/// An operator of a product.
#[derive(Clone, Copy, Debug, PartialEq, Eq)]
pub enum ProdOp {
    /// `*`.
    Multiply,
    /// `/`.
    Divide,
    /// `%`.
    Remainder,
}

/// An operand of a product.
#[cycle(expressions)]
#[derive(Drop)]
pub struct Term {
    pub kind: TermKind,
    pub span: Span,
    pub place: Place,
}

/// Which operand of a product it is.
#[cycle(expressions)]
#[derive(Drop)]
pub enum TermKind {
    /// One with an operator in front, as `-a`.
    Unary(Unary),
    /// One without, as `a` or `a ** b`.
    Power(Power),
}

/// An operator and the operand that follows it, as `-a` or `!!a`.
#[cycle(expressions)]
#[derive(Drop)]
pub struct Unary {
    pub op: UnaryOp,
    pub operand: UnaryOperand,
    pub span: Span,
    pub place: Place,
}

/// An operator that stands in front of its operand.
#[derive(Clone, Copy, Debug, PartialEq, Eq)]
pub enum UnaryOp {
    /// `-`.
    Negate,
    /// `!`.
    Not,
    /// `++`.
    Increment,
    /// `--`.
    Decrement,
}

/// What an operator in front is applied to.
#[cycle(expressions)]
#[derive(Drop)]
pub enum UnaryOperand {
    /// Another operator with its operand, as the `!a` of `!!a`.
    Unary(Boxed<Unary>),
    /// An atom with what follows it, as the `a.b` of `-a.b`.
    Post(Post),
}

/// A base with an exponent or without one, as `a ** b ** c`, which groups to the right.
#[cycle(expressions)]
#[derive(Drop)]
pub struct Power {
    pub base: Post,
    pub exponent: Option<Boxed<Power>>,
    pub span: Span,
    pub place: Place,
}
