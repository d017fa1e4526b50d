//! What a pass for names keeps.
#![tactic(auto)]

ghost use Rattle.std.specs.Prelude.{◌≡◌, IfOk, OnOk};
ghost use Rattle.sv_naming.specs.NamesKnown.{known_of, scope_entered};
ghost use Rattle.sv_names.specs.NameState.{state_of, entered, left, left_quiet, left_scope};

use sv_book::Pass;
use sv_naming::Naming;
use sv_rule::{Fault, Rule};
use sv_text::{NoMemory, Place};

/// Whoever asks what the names of a text mean.
#[derive(Drop)]
pub struct NameJudge<'a> {
    pub naming: Naming<'a>,
    /// The unknown name that counts so far.
    pub pass: Pass<Fault>,
}

impl<'a> NameJudge<'a> {
    /// Enters a node; whether all was clear before.
    pub fn open(&mut self) -> bool
        ensures before { result ≡ self.old.pass.clear }
        ensures state { state_of self.new ≡ entered self.old (known_of self.old.naming) }
    {
        let before = self.pass.clear;
        self.pass.clear = true;
        before
    }

    /// Leaves a node at a place, all of whose names are known or not.
    pub fn close(&mut self, before: bool, known: bool, place: Place)
        ensures { state_of self.new ≡ left self.old (known_of self.old.naming) before known place }
    {
        let parts = self.pass.clear;
        self.pass.ask(
            parts,
            !known,
            Fault {
                rule: Rule::Unknown,
                place,
            },
        );
        self.pass.clear = before && self.pass.clear;
    }

    /// Leaves a node without names.
    pub fn close_quiet(&mut self, before: bool)
        ensures { state_of self.new ≡ left_quiet self.old before }
    {
        self.pass.clear = before && self.pass.clear;
    }

    /// Enters a node that is a scope.
    pub fn open_scope(&mut self) -> Result<bool, NoMemory>
        ensures before { IfOk result (λ b. b ≡ self.old.pass.clear) }
        ensures state { OnOk result (state_of self.new ≡ entered self.old (scope_entered (known_of self.old.naming))) }
    {
        self.naming.enter_scope()?;
        Ok(self.open())
    }

    /// Leaves a scope without names of its own.
    pub fn close_scope(&mut self, before: bool)
        ensures { state_of self.new ≡ left_scope self.old before }
    {
        self.naming.leave_scope();
        self.close_quiet(before);
    }
}
