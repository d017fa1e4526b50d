//! Statements.
#![tactic(auto)]

ghost use Rattle.std.specs.Prelude.{◌≡◌};
ghost use Rattle.sv_plain.specs.PlainStmts.{plain_stmt, plain_block};
ghost use Rattle.sv_visit.specs.Sites.{Stating, Bracing};
ghost use Rattle.sv_forms.specs.FormState.{state_of, opened_at, closed_at};

use crate::around::more;
use crate::asker::Forms;
use sv_ast::{Block, Stmt};
use sv_form_book::Notes;
use sv_form_marks::Marks;
use sv_form_sites::{is_loop, is_unchecked};
use sv_text::NoMemory;
use sv_visit_stmt::{StmtJudge, StmtNode};

impl<'a> Forms<'a> {
    fn enter_statement(&mut self, s: &Stmt) -> bool
        ensures before { result ≡ self.old.pass.clear }
        ensures state { state_of self.new ≡ opened_at self.old (Stating (plain_stmt s.now)) }
    {
        let mut around = self.around;
        if is_loop(s) {
            around.loops = more(around.loops);
            around.notes = Notes::Loop;
        }
        self.enter(around)
    }

    fn leave_any_statement(&mut self, s: &Stmt, before: bool)
        ensures { state_of self.new ≡ closed_at self.old before (Stating (plain_stmt s.now)) }
    {
        let mut around = self.around;
        if is_loop(s) {
            around.loops = around.loops.saturating_sub(1);
        }
        let mut marks = Marks::none();
        marks.unchecked = is_unchecked(s);
        self.leave(around, before, marks, s.place);
    }

    fn enter_block(&mut self, b: &Block) -> bool
        ensures before { result ≡ self.old.pass.clear }
        ensures state { state_of self.new ≡ opened_at self.old (Bracing (plain_block b.now)) }
    {
        let mut around = self.around;
        around.blocks = more(around.blocks);
        self.enter(around)
    }

    fn leave_block(&mut self, b: &Block, before: bool)
        ensures { state_of self.new ≡ closed_at self.old before (Bracing (plain_block b.now)) }
    {
        let mut around = self.around;
        let mut marks = Marks::none();
        marks.head = around.in_interface && around.blocks == 1;
        around.blocks = around.blocks.saturating_sub(1);
        self.leave(around, before, marks, b.place);
    }
}

impl<'a> StmtJudge for Forms<'a> {
    fn enter_stmt(&mut self, site: StmtNode<'_>) -> Result<bool, NoMemory> {
        match site {
            StmtNode::Stmt(s) => Ok(self.enter_statement(s)),
            StmtNode::Block(b) => Ok(self.enter_block(b)),
        }
    }

    fn leave_stmt(&mut self, site: StmtNode<'_>, before: bool) -> Result<(), NoMemory> {
        match site {
            StmtNode::Stmt(s) => self.leave_any_statement(s, before),
            StmtNode::Block(b) => self.leave_block(b, before),
        }
        Ok(())
    }
}
