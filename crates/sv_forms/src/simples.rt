//! Annotations, and statements that end with `;`.
#![tactic(auto)]

ghost use Rattle.std.specs.Prelude.{◌≡◌};
ghost use Rattle.sv_visit.specs.Sites.{Annotation, Simply};
ghost use Rattle.sv_form_book.specs.FormKnown.{one_more};
ghost use Rattle.sv_forms.specs.FormState.{state_of, opened_at, closed_at};

use crate::asker::Forms;
use sv_annotation::fits;
use sv_ast::{Note, Simple};
use sv_form_book::{Inside, Owner, Rests};
use sv_form_marks::Marks;
use sv_form_rules::text_of;
use sv_form_sites::{has_sender, is_jump, is_rest, note_inside, takes};
use sv_plain::view::Node;
use sv_text::{Names, NoMemory};
use sv_visit_simple::{SimpleJudge, SimpleNode};

/// One `_` more.
fn one_more(rests: Rests) -> Rests
    ensures { result ≡ one_more rests }
{
    match rests {
        Rests::None => Rests::One,
        Rests::One | Rests::Several => Rests::Several,
    }
}

impl<'a> Forms<'a> {
    fn enter_note(&mut self, n: &Note) -> bool
        ensures before { result ≡ self.old.pass.clear }
        ensures state { state_of self.new ≡ opened_at self.old (Annotation n.now) }
    {
        let names: &Names = self.names;
        let mut around = self.around;
        around.inside = note_inside(text_of(names, n.word));
        self.enter(around)
    }

    fn leave_note(&mut self, n: &Note, before: bool)
        ensures { state_of self.new ≡ closed_at self.old before (Annotation n.now) }
    {
        let names: &Names = self.names;
        let notes = self.around.notes;
        let mut marks = Marks::none();
        marks.note = !(takes(notes, text_of(names, n.word))
            && fits(names, has_sender(notes), Node::Expr(&n.expr)));
        let mut around = self.around;
        around.inside = Inside::Code;
        self.leave(around, before, marks, n.place);
    }

    fn leave_statement(&mut self, s: &Simple, before: bool)
        ensures { state_of self.new ≡ closed_at self.old before (Simply s.now) }
    {
        let mut marks = Marks::none();
        let mut around = self.around;
        let in_modifier = match around.owner {
            Owner::Modifier => true,
            Owner::Function | Owner::Constructor => false,
        };
        marks.placeholder = is_rest(&s.kind) && !(in_modifier && around.loops == 0);
        marks.jump = is_jump(&s.kind) && around.loops == 0;
        if is_rest(&s.kind) {
            around.rests = one_more(around.rests);
        }
        self.leave(around, before, marks, s.place);
    }
}

impl<'a> SimpleJudge for Forms<'a> {
    fn enter_simple(&mut self, site: SimpleNode<'_>) -> Result<bool, NoMemory> {
        match site {
            SimpleNode::Note(n) => Ok(self.enter_note(n)),
            SimpleNode::Action(_) => Ok(self.enter(self.around)),
            SimpleNode::Decl(_) => Ok(self.enter(self.around)),
            SimpleNode::Slot(_) => Ok(self.enter(self.around)),
            SimpleNode::Simple(_) => Ok(self.enter(self.around)),
            SimpleNode::Bare(_) => Ok(self.enter(self.around)),
        }
    }

    fn leave_simple(&mut self, site: SimpleNode<'_>, before: bool) -> Result<(), NoMemory> {
        match site {
            SimpleNode::Note(n) => self.leave_note(n, before),
            SimpleNode::Action(_) => self.leave_quiet(before),
            SimpleNode::Decl(_) => self.leave_quiet(before),
            SimpleNode::Slot(_) => self.leave_quiet(before),
            SimpleNode::Simple(s) => self.leave_statement(s, before),
            SimpleNode::Bare(_) => self.leave_quiet(before),
        }
        Ok(())
    }
}
