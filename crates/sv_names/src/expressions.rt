//! Expressions and types.
#![tactic(auto)]

ghost use Rattle.std.specs.Prelude.{◌≡◌, IfOk, OnOk};
ghost use Rattle.sv_plain.specs.ExprFolds.{plain_plain};
ghost use Rattle.sv_plain.specs.ShownExprs.{kind_of};
ghost use Rattle.sv_rule.specs.declared.fault.Rule.{Rule as RuleName};
ghost use Rattle.sv_rule.specs.declared.fault.Fault.{Fault as FaultAt};
ghost use Rattle.sv_visit.specs.Sites.{Expression, PlainUse};
ghost use Rattle.sv_naming.specs.NamesKnown.{Known as KnownHere, known_of};
ghost use Rattle.sv_name_book.specs.NameBook.{names_book, old_entered, old_left};
ghost use Rattle.sv_names.specs.NameState.{state_of, opened_at, closed_at};

use crate::asker::NameJudge;
use sv_annotation::calls_old;
use sv_ast::Plain;
use sv_name_book::{expr_use, note_plain, note_use};
use sv_naming::Naming;
use sv_plain::view::{Kind, View};
use sv_text::{Names, NoMemory};
use sv_visit::{Judge, Role, Use};

/// Behind the beginning of a call of `old` the entry is spoken of.
fn enter_old(n: &mut Naming<'_>, k: Kind<'_>) -> Result<(), NoMemory>
    ensures { OnOk result (known_of n.new ≡ old_entered (kind_of k.entry) (known_of n.old)) }
{
    let names: &Names = n.names;
    if calls_old(names, k) {
        n.enter_entry()
    } else {
        Ok(())
    }
}

fn leave_old(n: &mut Naming<'_>, k: Kind<'_>)
    ensures { known_of n.new ≡ old_left (kind_of k.entry) (known_of n.old) }
{
    let names: &Names = n.names;
    if calls_old(names, k) {
        n.leave_entry();
    }
}

impl<'a> NameJudge<'a> {
    fn enter_expression(&mut self, _role: Role, v: View<'_>) -> Result<bool, NoMemory>
        ensures before { IfOk result (λ b. b ≡ self.old.pass.clear) }
        ensures state { OnOk result (state_of self.new
            ≡ opened_at self.old (Expression _role v.entry.spot (kind_of v.entry.kind))) }
    {
        enter_old(&mut self.naming, v.kind)?;
        Ok(self.open())
    }

    fn leave_expression(&mut self, _role: Role, v: View<'_>, before: bool) -> Result<(), NoMemory>
        ensures { OnOk result (state_of self.new
            ≡ closed_at self.old before (Expression _role v.entry.spot (kind_of v.entry.kind))) }
    {
        let known = note_use(&mut self.naming, expr_use(v.spot.span, v.kind))?;
        leave_old(&mut self.naming, v.kind);
        self.close(before, known, v.spot.place);
        Ok(())
    }

    fn leave_plain(&mut self, p: &Plain, before: bool) -> Result<(), NoMemory>
        ensures { OnOk result (state_of self.new
            ≡ closed_at self.old before (PlainUse (plain_plain p.now))) }
    {
        let known = note_plain(&mut self.naming, p)?;
        self.close(before, known, p.place);
        Ok(())
    }
}

impl<'a> Judge for NameJudge<'a> {
    type Stop = NoMemory;

    ghost Known = { KnownHere };

    ghost Rule = { RuleName };

    ghost Fault = { FaultAt };

    ghost book = { names_book };

    ghost state = { state_of };

    fn enter_expr(&mut self, role: Role, view: View<'_>) -> Result<bool, NoMemory> {
        self.enter_expression(role, view)
    }

    fn leave_expr(&mut self, role: Role, view: View<'_>, before: bool) -> Result<(), NoMemory> {
        self.leave_expression(role, view, before)
    }

    fn enter_use(&mut self, site: Use<'_>) -> Result<bool, NoMemory> {
        match site {
            Use::Type(_) => Ok(self.open()),
            Use::Plain(_) => Ok(self.open()),
            Use::Args(_) => Ok(self.open()),
        }
    }

    fn leave_use(&mut self, site: Use<'_>, before: bool) -> Result<(), NoMemory> {
        match site {
            Use::Type(_) => {
                self.close_quiet(before);
                Ok(())
            }
            Use::Plain(p) => self.leave_plain(p, before),
            Use::Args(_) => {
                self.close_quiet(before);
                Ok(())
            }
        }
    }
}
