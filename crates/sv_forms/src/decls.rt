//! Declarations without a body.
#![tactic(auto)]

ghost use Rattle.std.specs.Prelude.{◌≡◌};
ghost use Rattle.sv_visit.specs.Sites.{OfVariable, OfWord, OfOver};
ghost use Rattle.sv_forms.specs.FormState.{state_of, opened_at, closed_at};

use crate::asker::Forms;
use sv_ast::{Over, VarWord, Variable};
use sv_form_marks::Marks;
use sv_form_rules::{Word, Words};
use sv_form_sites::var_word;
use sv_text::NoMemory;
use sv_visit_decl::{DeclJudge, DeclNode};

impl<'a> Forms<'a> {
    fn enter_variable(&mut self, _v: &Variable) -> bool
        ensures before { result ≡ self.old.pass.clear }
        ensures state { state_of self.new ≡ opened_at self.old (OfVariable _v.now) }
    {
        let mut around = self.around;
        around.words = Words::none();
        self.enter(around)
    }

    fn leave_word(&mut self, w: &VarWord, before: bool)
        ensures { state_of self.new ≡ closed_at self.old before (OfWord w.now) }
    {
        let word = var_word(w.kind);
        let mut around = self.around;
        let mut marks = Marks::none();
        marks.head = around.words.contradict(word);
        around.words = around.words.with(word);
        self.leave(around, before, marks, w.place);
    }

    fn leave_over(&mut self, o: &Over, before: bool)
        ensures { state_of self.new ≡ closed_at self.old before (OfOver o.now) }
    {
        let mut around = self.around;
        let mut marks = Marks::none();
        marks.head = around.words.contradict(Word::Override);
        around.words = around.words.with(Word::Override);
        self.leave(around, before, marks, o.place);
    }
}

impl<'a> DeclJudge for Forms<'a> {
    fn enter_decl(&mut self, site: DeclNode<'_>) -> Result<bool, NoMemory> {
        match site {
            DeclNode::Struct(_) => Ok(self.enter(self.around)),
            DeclNode::Field(_) => Ok(self.enter(self.around)),
            DeclNode::Enum(_) => Ok(self.enter(self.around)),
            DeclNode::Event(_) => Ok(self.enter(self.around)),
            DeclNode::EventParam(_) => Ok(self.enter(self.around)),
            DeclNode::Error(_) => Ok(self.enter(self.around)),
            DeclNode::ErrorParam(_) => Ok(self.enter(self.around)),
            DeclNode::Variable(v) => Ok(self.enter_variable(v)),
            DeclNode::Word(_) => Ok(self.enter(self.around)),
            DeclNode::Over(_) => Ok(self.enter(self.around)),
            DeclNode::Param(_) => Ok(self.enter(self.around)),
        }
    }

    fn leave_decl(&mut self, site: DeclNode<'_>, before: bool) -> Result<(), NoMemory> {
        match site {
            DeclNode::Struct(_) => self.leave_quiet(before),
            DeclNode::Field(_) => self.leave_quiet(before),
            DeclNode::Enum(_) => self.leave_quiet(before),
            DeclNode::Event(_) => self.leave_quiet(before),
            DeclNode::EventParam(_) => self.leave_quiet(before),
            DeclNode::Error(_) => self.leave_quiet(before),
            DeclNode::ErrorParam(_) => self.leave_quiet(before),
            DeclNode::Variable(_) => self.leave_quiet(before),
            DeclNode::Word(w) => self.leave_word(w, before),
            DeclNode::Over(o) => self.leave_over(o, before),
            DeclNode::Param(_) => self.leave_quiet(before),
        }
        Ok(())
    }
}
