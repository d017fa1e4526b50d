use crate::expr::Expr;
use crate::types::TypeExpr;
use sqlite_items::{Boxed, Items};
use sv_text::{Name, Place, Span};

/// An atom and what is applied to it, as `a.b[i](x)`.
#[cycle(expressions)]
#[derive(Drop)]
pub struct Post {
    pub atom: Atom,
    pub suffixes: Items<Suffix>,
    pub span: Span,
    pub place: Place,
}

/// What is applied to an expression that stands before it.
#[cycle(expressions)]
#[derive(Drop)]
pub struct Suffix {
    pub kind: SuffixKind,
    pub span: Span,
    pub place: Place,
}

/// Which suffix it is.
#[cycle(expressions)]
#[derive(Drop)]
pub enum SuffixKind {
    /// An index, as `[i]`.
    Index(Boxed<Expr>),
    /// A member, as `.length`.
    Member(Name),
    /// Arguments, as `(a, b)`.
    Call(Args),
    /// The ether that a call sends, as `{value: a}`.
    Value(Boxed<Expr>),
    /// `++`.
    Increment,
    /// `--`.
    Decrement,
}

/// The smallest expressions.
#[cycle(expressions)]
#[derive(Drop)]
pub struct Atom {
    pub kind: AtomKind,
    pub span: Span,
    pub place: Place,
}

/// Which atom it is.
#[cycle(expressions)]
#[derive(Drop)]
pub enum AtomKind {
    /// A decimal number, as `12` or `3 days`.
    Number { digits: Name, unit: Option<Unit10> },
    /// A hexadecimal number, as `0xff`.
    Hexadecimal(Name),
    /// A string with its quotes, as `"text"`.
    String(Name),
    /// `true`.
    True,
    /// `false`.
    False,
    /// A name, as `total`.
    Name(Name),
    /// An elementary type, as the `uint8` of `uint8(a)`.
    Elementary(Name),
    /// `address`, as in `address(a)`.
    Address,
    /// `payable`, as in `payable(a)`.
    Payable,
    /// A type to ask about, as `type(uint8)`.
    Type(Boxed<TypeExpr>),
    /// Something new of a type, as `new uint256[]` in `new uint256[](3)`.
    New(Boxed<TypeExpr>),
    /// `super`.
    Super,
    /// `this`.
    This,
    /// An expression in parentheses, as `(a + b)`.
    Paren(Boxed<Expr>),
}

/// The unit of a number, as the `days` of `3 days`.
#[derive(Clone, Copy, Debug, PartialEq, Eq)]
pub struct Unit10 {
    pub kind: Unit10Kind,
    pub span: Span,
    pub place: Place,
}

/// Which unit it is.
#[derive(Clone, Copy, Debug, PartialEq, Eq)]
pub enum Unit10Kind {
    /// `wei`.
    Wei,
    /// `gwei`.
    Gwei,
    /// `ether`.
    Ether,
    /// `seconds`.
    Seconds,
    /// `minutes`.
    Minutes,
    /// `hours`.
    Hours,
    /// `days`.
    Days,
    /// `weeks`.
    Weeks,
}

/// The arguments of a call.
#[cycle(expressions)]
#[derive(Drop)]
pub struct Args {
    pub kind: ArgsKind,
    pub span: Span,
    pub place: Place,
}

/// Which form the arguments have.
#[cycle(expressions)]
#[derive(Drop)]
pub enum ArgsKind {
    /// Arguments in order, as `(a, b)`.
    Positional(Items<Expr>),
    /// Arguments by name, as `({to: a, amount: b})`.
    Named(Items<NamedArg>),
}

/// An argument by name, as `to: a`.
#[cycle(expressions)]
#[derive(Drop)]
pub struct NamedArg {
    pub name: Name,
    pub value: Expr,
}
