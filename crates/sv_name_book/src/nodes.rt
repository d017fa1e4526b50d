//! What nodes are for names.
#![tactic(auto)]

ghost use Rattle.std.specs.Prelude.{◌≡◌};
ghost use Rattle.sv_plain.specs.PlainStmts.{plain_stmt};
ghost use Rattle.sv_name_book.specs.NameBook.{is_for, note_within, params_count};

use sv_ast::{Params, Stmt, StmtKind};
use sv_seen::Within;

/// What an annotation with this word sees.
pub fn note_within(word: &[u8]) -> Within
    ensures { result ≡ note_within word.now }
{
    if word == b"precondition".as_slice() {
        Within::Entry
    } else {
        Within::Annotation
    }
}

/// How many parameters stand in parentheses that may be missing.
pub fn params_count(params: &Option<Params>) -> usize
    ensures { result ≡ params_count params.now }
{
    match params {
        None => 0,
        Some(p) => p.params.len(),
    }
}

/// Whether it is a `for`.
pub fn is_for(s: &Stmt) -> bool
    ensures { result ≡ is_for (plain_stmt s.now) }
{
    match &s.kind {
        StmtKind::For(_) => true,
        StmtKind::While(_) => false,
        StmtKind::Unchecked(_) => false,
        StmtKind::Block(_) => false,
        StmtKind::Simple(_) => false,
        StmtKind::If(_) => false,
    }
}
