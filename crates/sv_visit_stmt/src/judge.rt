ghost use Rattle.std.specs.Prelude.{◌≡◌, IfOk, OnOk};
ghost use Rattle.sv_book.specs.Visits.{opened, closed};
ghost use Rattle.sv_visit_stmt.specs.StmtSites.{stmt_site};

use sv_ast::{Block, Stmt};
use sv_visit_simple::SimpleJudge;

/// A statement, or statements in braces.
#[derive(Clone, Copy)]
pub enum StmtNode<'a> {
    /// A statement.
    Stmt(&'a Stmt),
    /// Statements in braces.
    Block(&'a Block),
}

/// Whoever asks the rules of a group of these nodes too.
pub trait StmtJudge: SimpleJudge {
    /// Enters a node; whether no rule was broken in the node around before.
    fn enter_stmt(&mut self, site: StmtNode<'_>) -> Result<bool, Self::Stop>
        ensures before { IfOk result (λ b. b ≡ (Self.state self.old).clear) }
        ensures state { OnOk result (Self.state self.new ≡ opened Self.book (stmt_site site.entry) (Self.state self.old)) };

    /// Leaves a node, behind its parts.
    fn leave_stmt(&mut self, site: StmtNode<'_>, before: bool) -> Result<(), Self::Stop>
        ensures { OnOk result (Self.state self.new ≡ closed Self.book (stmt_site site.entry) before (Self.state self.old)) };
}
