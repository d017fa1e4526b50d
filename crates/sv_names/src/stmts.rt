//! Statements.
#![tactic(auto)]

ghost use Rattle.std.specs.Prelude.{◌≡◌, IfOk, OnOk};
ghost use Rattle.sv_plain.specs.PlainStmts.{plain_stmt};
ghost use Rattle.sv_visit.specs.Sites.{Stating};
ghost use Rattle.sv_names.specs.NameState.{state_of, opened_at, closed_at};

use crate::asker::NameJudge;
use sv_ast::Stmt;
use sv_name_book::is_for;
use sv_text::NoMemory;
use sv_visit_stmt::{StmtJudge, StmtNode};

impl<'a> NameJudge<'a> {
    fn enter_statement(&mut self, s: &Stmt) -> Result<bool, NoMemory>
        ensures before { IfOk result (λ b. b ≡ self.old.pass.clear) }
        ensures state { OnOk result (state_of self.new
            ≡ opened_at self.old (Stating (plain_stmt s.now))) }
    {
        if is_for(s) {
            return self.open_scope();
        }
        Ok(self.open())
    }

    fn leave_any_statement(&mut self, s: &Stmt, before: bool)
        ensures { state_of self.new ≡ closed_at self.old before (Stating (plain_stmt s.now)) }
    {
        if is_for(s) {
            self.close_scope(before);
        } else {
            self.close_quiet(before);
        }
    }
}

impl<'a> StmtJudge for NameJudge<'a> {
    fn enter_stmt(&mut self, site: StmtNode<'_>) -> Result<bool, NoMemory> {
        match site {
            StmtNode::Stmt(s) => self.enter_statement(s),
            StmtNode::Block(_) => self.open_scope(),
        }
    }

    fn leave_stmt(&mut self, site: StmtNode<'_>, before: bool) -> Result<(), NoMemory> {
        match site {
            StmtNode::Stmt(s) => self.leave_any_statement(s, before),
            StmtNode::Block(_) => self.close_scope(before),
        }
        Ok(())
    }
}
