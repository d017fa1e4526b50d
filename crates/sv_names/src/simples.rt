//! Annotations, and statements that end with `;`.
#![tactic(auto)]

ghost use Rattle.std.specs.Prelude.{◌≡◌, IfOk, OnOk};
ghost use Rattle.sv_naming.specs.NamesKnown.{known_of};
ghost use Rattle.sv_visit.specs.Sites.{Annotation, Declaring, Filling, Simply};
ghost use Rattle.sv_name_book.specs.NameBook.{slot_declared};
ghost use Rattle.sv_names.specs.NameState.{state_of, opened_at, closed_at};

use crate::asker::NameJudge;
use sv_ast::{Decl, Note, Simple, Slot, SlotKind};
use sv_name_book::{note_use, note_within, simple_use, slot_use};
use sv_naming::Naming;
use sv_text::NoMemory;
use sv_visit_simple::{SimpleJudge, SimpleNode};

/// Declares the variable of a slot that declares one.
fn declare_slot(n: &mut Naming<'_>, k: &Option<SlotKind>) -> Result<(), NoMemory>
    ensures { OnOk result (known_of n.new ≡ slot_declared k.now (known_of n.old)) }
{
    match k {
        Some(
            SlotKind::Decl {
                of_type: _,
                location: _,
                name,
            },
        ) => n.declare_local(*name),
        Some(SlotKind::Name(_)) => Ok(()),
        None => Ok(()),
    }
}

impl<'a> NameJudge<'a> {
    fn enter_note(&mut self, n: &Note) -> bool
        ensures before { result ≡ self.old.pass.clear }
        ensures state { state_of self.new ≡ opened_at self.old (Annotation n.now) }
    {
        let within = note_within(self.naming.spelling(n.word));
        self.naming.enter_note(within);
        self.open()
    }

    fn leave_note(&mut self, _n: &Note, before: bool)
        ensures { state_of self.new ≡ closed_at self.old before (Annotation _n.now) }
    {
        self.naming.leave_note();
        self.close_quiet(before);
    }

    fn leave_decl_node(&mut self, d: &Decl, before: bool) -> Result<(), NoMemory>
        ensures { OnOk result (state_of self.new ≡ closed_at self.old before (Declaring d.now)) }
    {
        self.naming.declare_local(d.name)?;
        self.close_quiet(before);
        Ok(())
    }

    fn leave_slot(&mut self, s: &Slot, before: bool) -> Result<(), NoMemory>
        ensures { OnOk result (state_of self.new ≡ closed_at self.old before (Filling s.now)) }
    {
        let known = note_use(&mut self.naming, slot_use(s))?;
        declare_slot(&mut self.naming, &s.kind)?;
        self.close(before, known, s.place);
        Ok(())
    }

    fn leave_statement(&mut self, s: &Simple, before: bool) -> Result<(), NoMemory>
        ensures { OnOk result (state_of self.new ≡ closed_at self.old before (Simply s.now)) }
    {
        let known = note_use(&mut self.naming, simple_use(s))?;
        self.close(before, known, s.place);
        Ok(())
    }
}

impl<'a> SimpleJudge for NameJudge<'a> {
    fn enter_simple(&mut self, site: SimpleNode<'_>) -> Result<bool, NoMemory> {
        match site {
            SimpleNode::Note(n) => Ok(self.enter_note(n)),
            SimpleNode::Action(_) => Ok(self.open()),
            SimpleNode::Decl(_) => Ok(self.open()),
            SimpleNode::Slot(_) => Ok(self.open()),
            SimpleNode::Simple(_) => Ok(self.open()),
            SimpleNode::Bare(_) => self.open_scope(),
        }
    }

    fn leave_simple(&mut self, site: SimpleNode<'_>, before: bool) -> Result<(), NoMemory> {
        match site {
            SimpleNode::Note(n) => {
                self.leave_note(n, before);
                Ok(())
            }
            SimpleNode::Action(_) => {
                self.close_quiet(before);
                Ok(())
            }
            SimpleNode::Decl(d) => self.leave_decl_node(d, before),
            SimpleNode::Slot(s) => self.leave_slot(s, before),
            SimpleNode::Simple(s) => self.leave_statement(s, before),
            SimpleNode::Bare(_) => {
                self.close_scope(before);
                Ok(())
            }
        }
    }
}
