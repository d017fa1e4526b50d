use crate::expr::Expr;
use crate::post::Args;
use crate::types::{TypeExpr, Where};
use sqlite_items::Items;
use sv_text::{Name, Place, Span};

/// A statement that ends with `;`, without it.
#[derive(Drop)]
pub struct Simple {
    pub kind: SimpleKind,
    pub span: Span,
    pub place: Place,
}

/// Which statement that ends with `;` it is.
#[derive(Drop)]
pub enum SimpleKind {
    /// A declaration, as `uint256 a = b`.
    Decl(Decl),
    /// Several targets at once, as `(a, uint256 b) = f()`.
    Tuple(Tuple),
    /// An expression, an assignment or a `delete`.
    Action(Action),
    /// `return`, with its values.
    Return(Return),
    /// `break`.
    Break,
    /// `continue`.
    Continue,
    /// `_`, where a modifier runs what it is used on.
    Rest,
    /// An event, as `emit Sent(a, b)`.
    Emit { event: Name, args: Args },
    /// An error, as `revert Short(a)`.
    Revert { error: Name, args: Args },
}

/// A return, as `return a` or `return (a, b)`.
#[derive(Drop)]
pub struct Return {
    pub values: Option<Returned>,
    pub span: Span,
    pub place: Place,
}

/// What is returned.
#[derive(Drop)]
pub enum Returned {
    /// One value, as `a`.
    One(Expr),
    /// Two values or more, as `(a, b)`.
    Many(Items<Expr>),
}

/// A declaration of a variable, as `uint256[] memory a = b`.
#[derive(Drop)]
pub struct Decl {
    pub of_type: TypeExpr,
    pub location: Option<Where>,
    pub name: Name,
    pub value: Option<Expr>,
    pub span: Span,
    pub place: Place,
}

/// Two slots or more and the value that fills them, as `(a, , uint256 b) = f()`.
#[derive(Drop)]
pub struct Tuple {
    pub slots: Items<Slot>,
    pub value: Expr,
    pub span: Span,
    pub place: Place,
}

/// One place of a tuple, which may be empty.
#[derive(Drop)]
pub struct Slot {
    pub kind: Option<SlotKind>,
    pub span: Span,
    pub place: Place,
}

/// What stands in a slot.
#[derive(Drop)]
pub enum SlotKind {
    /// A new variable, as `uint256 a`.
    Decl {
        of_type: TypeExpr,
        location: Option<Where>,
        name: Name,
    },
    /// A variable that is there, as `a`.
    Name(Name),
}

/// An expression, an assignment or a `delete`.
#[derive(Drop)]
pub struct Action {
    pub kind: ActionKind,
    pub span: Span,
    pub place: Place,
}

/// Which action it is.
#[derive(Drop)]
pub enum ActionKind {
    /// A deletion, as `delete a[i]`.
    Delete(Expr),
    /// An expression, as `f(a)`, or an assignment to it, as `a += b`.
    Expr {
        target: Expr,
        assignment: Option<Assignment>,
    },
}

/// An operator and the value that is assigned, as `+= b`.
#[derive(Drop)]
pub struct Assignment {
    pub op: AssignOp,
    pub value: Expr,
}

/// An operator of an assignment.
#[derive(Clone, Copy, Debug, PartialEq, Eq)]
pub struct AssignOp {
    pub kind: AssignOpKind,
    pub span: Span,
    pub place: Place,
}

/// Which operator of an assignment it is.
#[derive(Clone, Copy, Debug, PartialEq, Eq)]
pub enum AssignOpKind {
    /// `=`.
    Set,
    /// `+=`.
    Add,
    /// `-=`.
    Subtract,
    /// `*=`.
    Multiply,
    /// `/=`.
    Divide,
    /// `%=`.
    Remainder,
}
