//! Expressions and types.
#![tactic(auto)]

ghost use Rattle.std.specs.Prelude.{◌≡◌};
ghost use Rattle.sv_plain.specs.ShownExprs.{kind_of};
ghost use Rattle.sv_rule.specs.declared.fault.Rule.{Rule as RuleName};
ghost use Rattle.sv_rule.specs.declared.fault.Fault.{Fault as FaultAt};
ghost use Rattle.sv_form_book.specs.FormKnown.{Known as KnownHere};
ghost use Rattle.sv_form_book.specs.FormRules.{forms_book};
ghost use Rattle.sv_forms.specs.FormState.{state_of, expr_marks};

use crate::asker::Forms;
use sv_annotation::calls_old;
use sv_form_book::Inside;
use sv_form_marks::Marks;
use sv_form_rules::{assigns_inside, is_address_literal, is_wide, raises_others};
use sv_form_sites::is_another;
use sv_plain::view::{Kind, View};
use sv_text::{Names, NoMemory};
use sv_visit::{Judge, Role, Use};

/// Which rules an expression breaks, within an annotation or not.
fn marks_of(names: &Names, inside: Inside, role: Role, k: Kind<'_>) -> Marks
    ensures { result ≡ expr_marks names.now inside role (kind_of k.entry) }
{
    let mut marks = Marks::none();
    marks.wide_literal = is_wide(names, k);
    marks.address_literal = is_address_literal(names, k);
    marks.note = is_another(inside) && calls_old(names, k);
    marks.assign = assigns_inside(role, k);
    marks.power = raises_others(k);
    marks
}

impl<'a> Judge for Forms<'a> {
    type Stop = NoMemory;

    ghost Known = { KnownHere };

    ghost Rule = { RuleName };

    ghost Fault = { FaultAt };

    ghost book = { forms_book };

    ghost state = { state_of };

    fn enter_expr(&mut self, _role: Role, _view: View<'_>) -> Result<bool, NoMemory> {
        Ok(self.enter(self.around))
    }

    fn leave_expr(&mut self, role: Role, view: View<'_>, before: bool) -> Result<(), NoMemory> {
        let marks = marks_of(self.names, self.around.inside, role, view.kind);
        self.leave(self.around, before, marks, view.spot.place);
        Ok(())
    }

    fn enter_use(&mut self, site: Use<'_>) -> Result<bool, NoMemory> {
        match site {
            Use::Type(_) => Ok(self.enter(self.around)),
            Use::Plain(_) => Ok(self.enter(self.around)),
            Use::Args(_) => Ok(self.enter(self.around)),
        }
    }

    fn leave_use(&mut self, site: Use<'_>, before: bool) -> Result<(), NoMemory> {
        match site {
            Use::Type(_) => self.leave_quiet(before),
            Use::Plain(_) => self.leave_quiet(before),
            Use::Args(_) => self.leave_quiet(before),
        }
        Ok(())
    }
}
