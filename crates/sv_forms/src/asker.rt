//! What a pass of the first group keeps.
#![tactic(auto)]

ghost use Rattle.std.specs.Prelude.{◌≡◌};
ghost use Rattle.sv_forms.specs.FormState.{state_of, entered, left, left_quiet};

use crate::around::Around;
use std::alloc::Global;
use sv_book::Pass;
use sv_form_bases::Bases;
use sv_form_marks::{Marks, close};
use sv_rule::Fault;
use sv_text::{Names, Place};

/// Whoever asks the first group of rules.
#[derive(Drop)]
pub struct Forms<'a> {
    /// The texts of names.
    pub names: &'a Names,
    /// What stands in the text, and who is whose base.
    pub bases: Bases<'a>,
    /// Where the search for a base takes memory.
    pub alloc: Global,
    /// What is around.
    pub around: Around,
    /// The fault that counts so far.
    pub pass: Pass<Fault>,
}

impl<'a> Forms<'a> {
    /// Enters a node, within which this is around; whether all was clear before.
    pub fn enter(&mut self, around: Around) -> bool
        ensures before { result ≡ self.old.pass.clear }
        ensures state { state_of self.new ≡ entered self.old around }
    {
        let before = self.pass.clear;
        self.around = around;
        self.pass.clear = true;
        before
    }

    /// Leaves a node, behind which this is around.
    pub fn leave(&mut self, around: Around, before: bool, marks: Marks, place: Place)
        ensures { state_of self.new ≡ left self.old around before marks place }
    {
        self.around = around;
        close(&mut self.pass, before, marks, place);
    }

    /// Leaves a node of which no rule speaks.
    pub fn leave_quiet(&mut self, before: bool)
        ensures { state_of self.new ≡ left_quiet self.old before }
    {
        self.pass.clear = before && self.pass.clear;
    }
}
