//! Declarations, with a body and without.
#![tactic(auto)]

ghost use Rattle.std.specs.Prelude.{◌≡◌, IfOk, OnOk};
ghost use Rattle.sv_visit.specs.Sites.{OfHead, OfOver, OfParam};
ghost use Rattle.sv_names.specs.NameState.{state_of, function_opened, closed_at};

use crate::asker::NameJudge;
use sv_ast::{Head, Over, Param};
use sv_name_book::{are_contracts, head_use, note_use, params_count};
use sv_text::NoMemory;
use sv_visit_decl::{DeclJudge, DeclNode, FunctionJudge, FunctionNode};

impl<'a> NameJudge<'a> {
    fn leave_param(&mut self, p: &Param, before: bool) -> Result<(), NoMemory>
        ensures { OnOk result (state_of self.new ≡ closed_at self.old before (OfParam p.now)) }
    {
        self.naming.declare_param(p.name)?;
        self.close_quiet(before);
        Ok(())
    }

    fn leave_over(&mut self, o: &Over, before: bool) -> Result<(), NoMemory>
        ensures { OnOk result (state_of self.new ≡ closed_at self.old before (OfOver o.now)) }
    {
        let known = are_contracts(&self.naming, o.names.as_slice())?;
        self.close(before, known, o.place);
        Ok(())
    }

    fn leave_head(&mut self, h: &Head, before: bool) -> Result<(), NoMemory>
        ensures { OnOk result (state_of self.new ≡ closed_at self.old before (OfHead h.now)) }
    {
        let in_constructor = self.naming.in_constructor;
        let known = note_use(&mut self.naming, head_use(in_constructor, h))?;
        self.close(before, known, h.place);
        Ok(())
    }

    /// Enters what has so many parameters.
    fn enter_owner(&mut self, params: usize, in_constructor: bool) -> Result<bool, NoMemory>
        ensures before { IfOk result (λ b. b ≡ self.old.pass.clear) }
        ensures state { OnOk result (state_of self.new
            ≡ function_opened self.old params in_constructor) }
    {
        self.naming.enter_function(params, in_constructor)?;
        Ok(self.open())
    }
}

impl<'a> DeclJudge for NameJudge<'a> {
    fn enter_decl(&mut self, site: DeclNode<'_>) -> Result<bool, NoMemory> {
        match site {
            DeclNode::Struct(_) => Ok(self.open()),
            DeclNode::Field(_) => Ok(self.open()),
            DeclNode::Enum(_) => Ok(self.open()),
            DeclNode::Event(_) => Ok(self.open()),
            DeclNode::EventParam(_) => Ok(self.open()),
            DeclNode::Error(_) => Ok(self.open()),
            DeclNode::ErrorParam(_) => Ok(self.open()),
            DeclNode::Variable(_) => Ok(self.open()),
            DeclNode::Word(_) => Ok(self.open()),
            DeclNode::Over(_) => Ok(self.open()),
            DeclNode::Param(_) => Ok(self.open()),
        }
    }

    fn leave_decl(&mut self, site: DeclNode<'_>, before: bool) -> Result<(), NoMemory> {
        match site {
            DeclNode::Struct(_) => self.close_quiet(before),
            DeclNode::Field(_) => self.close_quiet(before),
            DeclNode::Enum(_) => self.close_quiet(before),
            DeclNode::Event(_) => self.close_quiet(before),
            DeclNode::EventParam(_) => self.close_quiet(before),
            DeclNode::Error(_) => self.close_quiet(before),
            DeclNode::ErrorParam(_) => self.close_quiet(before),
            DeclNode::Variable(_) => self.close_quiet(before),
            DeclNode::Word(_) => self.close_quiet(before),
            DeclNode::Over(o) => return self.leave_over(o, before),
            DeclNode::Param(p) => return self.leave_param(p, before),
        }
        Ok(())
    }
}

impl<'a> FunctionJudge for NameJudge<'a> {
    fn enter_function(&mut self, site: FunctionNode<'_>) -> Result<bool, NoMemory> {
        match site {
            FunctionNode::Function(f) => self.enter_owner(f.params.params.len(), false),
            FunctionNode::Constructor(f) => self.enter_owner(f.params.params.len(), true),
            FunctionNode::Special(_) => self.enter_owner(0, false),
            FunctionNode::Modifier(m) => self.enter_owner(params_count(&m.params), false),
            FunctionNode::Head(_) => Ok(self.open()),
        }
    }

    fn leave_function(&mut self, site: FunctionNode<'_>, before: bool) -> Result<(), NoMemory> {
        match site {
            FunctionNode::Function(_) => self.close_scope(before),
            FunctionNode::Constructor(_) => self.close_scope(before),
            FunctionNode::Special(_) => self.close_scope(before),
            FunctionNode::Modifier(_) => self.close_scope(before),
            FunctionNode::Head(h) => return self.leave_head(h, before),
        }
        Ok(())
    }
}
