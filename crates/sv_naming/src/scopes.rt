//! What changes what is known.
#![tactic(auto)]

ghost use Rattle.std.specs.Prelude.{◌≡◌, OnOk};
ghost use Rattle.sv_naming.specs.NamesKnown.{contract_entered, contract_left, entry_entered, entry_left, function_entered, known_of, local_declared, note_entered, note_left, param_declared, scope_entered, scope_left};

use crate::naming::Naming;
use sv_local_names::LocalNames;
use sv_seen::Within;
use sv_text::{Name, NoMemory};

impl<'a> Naming<'a> {
    /// Enters a contract.
    pub fn enter_contract(&mut self)
        ensures { known_of self.new ≡ contract_entered (known_of self.old) }
    {
        self.in_contract = true;
    }

    /// Leaves a contract.
    pub fn leave_contract(&mut self) -> Result<(), NoMemory>
        ensures { OnOk result (known_of self.new ≡ contract_left (known_of self.old)) }
    {
        self.ended = self.ended.checked_add(1).ok_or(NoMemory)?;
        self.in_contract = false;
        Ok(())
    }

    /// Enters a function, a constructor or a modifier with so many parameters, which are declared next, and behind them its results.
    pub fn enter_function(&mut self, params: usize, in_constructor: bool) -> Result<(), NoMemory>
        ensures { OnOk result (known_of self.new ≡ function_entered params in_constructor (known_of self.old)) }
    {
        self.locals = LocalNames::new(self.alloc);
        self.locals.enter()?;
        self.params = params;
        self.in_constructor = in_constructor;
        Ok(())
    }

    /// Declares a parameter or a result.
    pub fn declare_param(&mut self, name: Option<Name>) -> Result<(), NoMemory>
        ensures { OnOk result (known_of self.new ≡ param_declared name (known_of self.old)) }
    {
        let is_result = self.params <= self.locals.count() as usize;
        self.locals.declare(name, is_result)
    }

    /// Declares a variable of a function.
    pub fn declare_local(&mut self, name: Name) -> Result<(), NoMemory>
        ensures { OnOk result (known_of self.new ≡ local_declared name (known_of self.old)) }
    {
        self.locals.declare(Some(name), false)
    }

    /// Enters a scope.
    pub fn enter_scope(&mut self) -> Result<(), NoMemory>
        ensures { OnOk result (known_of self.new ≡ scope_entered (known_of self.old)) }
    {
        self.locals.enter()
    }

    /// Leaves a scope.
    pub fn leave_scope(&mut self)
        ensures { known_of self.new ≡ scope_left (known_of self.old) }
    {
        self.locals.leave();
    }

    /// Enters an annotation.
    pub fn enter_note(&mut self, note: Within)
        ensures { known_of self.new ≡ note_entered note (known_of self.old) }
    {
        self.note = note;
    }

    /// Leaves an annotation.
    pub fn leave_note(&mut self)
        ensures { known_of self.new ≡ note_left (known_of self.old) }
    {
        self.note = Within::Code;
    }

    /// Enters what is said of the entry of a function.
    pub fn enter_entry(&mut self) -> Result<(), NoMemory>
        ensures { OnOk result (known_of self.new ≡ entry_entered (known_of self.old)) }
    {
        self.entries = self.entries.checked_add(1).ok_or(NoMemory)?;
        Ok(())
    }

    /// Leaves it.
    pub fn leave_entry(&mut self)
        ensures { known_of self.new ≡ entry_left (known_of self.old) }
    {
        self.entries = self.entries.saturating_sub(1);
    }
}
