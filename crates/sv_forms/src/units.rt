//! Contracts, and the whole text.
#![tactic(auto)]

ghost use Rattle.std.specs.Prelude.{◌≡◌, IfOk};
ghost use Rattle.sv_book.specs.Books.{Least, seen};
ghost use Rattle.sv_book.specs.Visits.{begun};
ghost use Rattle.sv_visit.specs.Sites.{OfContract, OfText};
ghost use Rattle.sv_visit_unit.specs.UnitSites.{unit_walk};
ghost use Rattle.sv_form_book.specs.FormKnown.{nothing_around};
ghost use Rattle.sv_form_book.specs.FormRules.{forms_book, forms_table};
ghost use Rattle.sv_forms.specs.FormState.{state_of, opened_at, closed_at};

use crate::around::Around;
use crate::asker::Forms;
use std::alloc::Global;
use sv_ast::{Contract, Unit};
use sv_book::Pass;
use sv_form_bases::Bases;
use sv_form_book::{Inside, Notes, Owner, Rests};
use sv_form_marks::Marks;
use sv_form_rules::Words;
use sv_form_sites::{any_whole, is_interface, name_of};
use sv_rule::{Fault, laws};
use sv_text::{Names, NoMemory, Place};
use sv_visit_unit::{UnitJudge, UnitNode, ask_unit};

impl<'a> Forms<'a> {
    fn enter_contract(&mut self, c: &Contract) -> bool
        ensures before { result ≡ self.old.pass.clear }
        ensures state { state_of self.new ≡ opened_at self.old (OfContract c.now) }
    {
        let mut around = self.around;
        around.contract = Some(name_of(&c.kind));
        around.in_interface = is_interface(&c.kind);
        around.notes = Notes::Contract;
        self.enter(around)
    }

    fn leave_text(&mut self, u: &Unit, before: bool)
        ensures { state_of self.new ≡ closed_at self.old before (OfText u.now) }
    {
        let mut marks = Marks::none();
        marks.no_contract = !any_whole(u.items.as_slice());
        self.leave(self.around, before, marks, Place { line: 1, col: 1 });
    }
}

impl<'a> UnitJudge for Forms<'a> {
    fn enter_unit(&mut self, site: UnitNode<'_>) -> Result<bool, NoMemory> {
        match site {
            UnitNode::Text(_) => Ok(self.enter(self.around)),
            UnitNode::Constant(_) => Ok(self.enter(self.around)),
            UnitNode::Contract(c) => Ok(self.enter_contract(c)),
            UnitNode::Base(_) => Ok(self.enter(self.around)),
        }
    }

    fn leave_unit(&mut self, site: UnitNode<'_>, before: bool) -> Result<(), NoMemory> {
        match site {
            UnitNode::Text(u) => self.leave_text(u, before),
            UnitNode::Constant(_) => self.leave_quiet(before),
            UnitNode::Contract(_) => self.leave_quiet(before),
            UnitNode::Base(_) => self.leave_quiet(before),
        }
        Ok(())
    }
}

/// Nothing is around, and nothing was asked.
fn begin<'a>(alloc: Global, names: &'a Names, bases: Bases<'a>) -> Forms<'a>
    ensures { state_of result ≡ begun (nothing_around names.now bases.entry) }
{
    Forms {
        names,
        bases,
        alloc,
        around: Around {
            contract: None,
            in_interface: false,
            owner: Owner::Function,
            notes: Notes::Contract,
            inside: Inside::Code,
            loops: 0,
            blocks: 0,
            rests: Rests::None,
            words: Words::none(),
        },
        pass: Pass {
            clear: true,
            least: None,
        },
    }
}

/// The broken rule of the first group that counts, at its node: of those whose node has no part that breaks one of the group, the
/// first by place and number; none where no rule of the group is broken. The profile is 1, the only one so far.
pub fn forms(
    alloc: Global,
    unit: &Unit,
    names: &Names,
    _profile: u8,
) -> Result<Option<Fault>, NoMemory>
    requires { _profile ≡ 1 }
    ensures { IfOk result (Least forms_table (seen forms_book (nothing_around names.now unit.now.items) (unit_walk unit.now))) }
{
    let bases = Bases::new(alloc, unit.items.as_slice())?;
    let mut j = begin(alloc, names, bases);
    laws::faults_are_ordered();
    ask_unit(&mut j, unit)?;
    Ok(j.pass.least)
}
