use crate::expr::Expr;
use crate::note::Note;
use crate::simple::{Action, Decl, Simple};
use sqlite_items::Items;
use sv_text::{Place, Span};

/// Statements in braces, as `{ a = b; f(); }`.
#[cycle(statements)]
#[derive(Drop)]
pub struct Block {
    pub stmts: Items<Stmt>,
    pub span: Span,
    pub place: Place,
}

/// A statement.
#[cycle(statements)]
#[derive(Drop)]
pub struct Stmt {
    pub kind: StmtKind,
    pub span: Span,
    pub place: Place,
}

/// Which statement it is.
#[cycle(statements)]
#[derive(Drop)]
pub enum StmtKind {
    /// `{ .. }`.
    Block(Block),
    /// `unchecked { .. }`.
    Unchecked(Block),
    /// One that ends with `;`, as `a = b;`.
    Simple(Simple),
    /// `if (a) { .. }`.
    If(If),
    /// `while (a) { .. }`.
    While(While),
    /// `for (uint256 i = 0; i < n; i++) { .. }`.
    For(For),
}

/// What is run under a condition or in a loop.
#[cycle(statements)]
#[derive(Drop)]
pub struct Body {
    pub kind: BodyKind,
    pub span: Span,
    pub place: Place,
}

/// Which form a body has.
#[cycle(statements)]
#[derive(Drop)]
pub enum BodyKind {
    /// `{ .. }`.
    Block(Block),
    /// One statement that ends with `;`, as `a = b;`.
    Simple(Simple),
}

/// A condition with its body and the branches that follow, as `if (a) { .. } else if (b) { .. } else { .. }`.
#[cycle(statements)]
#[derive(Drop)]
pub struct If {
    pub condition: Expr,
    pub body: Body,
    pub else_ifs: Items<ElseIf>,
    pub otherwise: Option<Else>,
    pub span: Span,
    pub place: Place,
}

/// A further condition with its body, as `else if (b) { .. }`, with the offset and the place of the `else`.
#[cycle(statements)]
#[derive(Drop)]
pub struct ElseIf {
    pub condition: Expr,
    pub body: Body,
    pub at: u32,
    pub place: Place,
}

/// The last branch, as `else { .. }`, with the offset and the place of the `else`.
#[cycle(statements)]
#[derive(Drop)]
pub struct Else {
    pub body: Body,
    pub at: u32,
    pub place: Place,
}

/// The word by which a loop begins, with its bytes and its place: before it there may be annotations.
#[derive(Clone, Copy)]
pub struct Keyword {
    pub span: Span,
    pub place: Place,
}

/// A loop with a condition, as `while (a) { .. }`.
#[cycle(statements)]
#[derive(Drop)]
pub struct While {
    pub notes: Items<Note>,
    pub keyword: Keyword,
    pub condition: Expr,
    pub body: Body,
    pub span: Span,
    pub place: Place,
}

/// A loop with a start and a step, as `for (uint256 i = 0; i < n; i++) { .. }`.
#[cycle(statements)]
#[derive(Drop)]
pub struct For {
    pub notes: Items<Note>,
    pub keyword: Keyword,
    pub start: Option<ForStart>,
    pub condition: Option<Expr>,
    pub step: Option<Action>,
    pub body: Body,
    pub span: Span,
    pub place: Place,
}

/// How a `for` starts.
#[derive(Drop)]
pub enum ForStart {
    /// With a declaration, as `uint256 i = 0`.
    Decl(Decl),
    /// With an action, as `i = 0`.
    Action(Action),
}
