//! What statements are.
#![tactic(auto)]

ghost use Rattle.std.specs.Prelude.{◌≡◌};
ghost use Rattle.sv_plain.specs.PlainStmts.{plain_stmt};
ghost use Rattle.sv_form_book.specs.FormKnown.{is_rest, is_loop};
ghost use Rattle.sv_form_book.specs.FormRules.{is_jump, is_unchecked_stmt};

use sv_ast::{SimpleKind, Stmt, StmtKind};

/// Whether it is `_`.
pub fn is_rest(k: &SimpleKind) -> bool
    ensures { result ≡ is_rest k.now }
{
    match k {
        SimpleKind::Rest => true,
        _ => false,
    }
}

/// Whether it is `break` or `continue`.
pub fn is_jump(k: &SimpleKind) -> bool
    ensures { result ≡ is_jump k.now }
{
    match k {
        SimpleKind::Break => true,
        SimpleKind::Continue => true,
        _ => false,
    }
}

/// Whether it is a loop.
pub fn is_loop(s: &Stmt) -> bool
    ensures { result ≡ is_loop (plain_stmt s.now) }
{
    match &s.kind {
        StmtKind::While(_) => true,
        StmtKind::For(_) => true,
        StmtKind::Block(_) => false,
        StmtKind::Unchecked(_) => false,
        StmtKind::Simple(_) => false,
        StmtKind::If(_) => false,
    }
}

/// Whether it is an `unchecked` block.
pub fn is_unchecked(s: &Stmt) -> bool
    ensures { result ≡ is_unchecked_stmt (plain_stmt s.now) }
{
    match &s.kind {
        StmtKind::Unchecked(_) => true,
        StmtKind::While(_) => false,
        StmtKind::For(_) => false,
        StmtKind::Block(_) => false,
        StmtKind::Simple(_) => false,
        StmtKind::If(_) => false,
    }
}
