//! Contracts, and the whole text.
#![tactic(auto)]

ghost use Rattle.std.specs.Prelude.{◌≡◌, IfOk, OnOk};
ghost use Rattle.sv_book.specs.Books.{Least, behind, seen};
ghost use Rattle.sv_book.specs.Visits.{begun};
ghost use Rattle.sv_decl.specs.Declarations.{declared_text};
ghost use Rattle.sv_visit.specs.Sites.{OfBase, OfContract};
ghost use Rattle.sv_visit_unit.specs.UnitSites.{unit_walk};
ghost use Rattle.sv_naming.specs.NamesKnown.{nothing_known};
ghost use Rattle.sv_name_book.specs.NameBook.{names_book, names_table};
ghost use Rattle.sv_names.specs.NameState.{state_of, opened_at, closed_at};

use crate::asker::NameJudge;
use sqlite_items::Items;
use std::alloc::Global;
use sv_ast::{Base, Contract, Unit};
use sv_book::Pass;
use sv_decl::{DeclaredText, declared_text};
use sv_name_book::{Use, note_use};
use sv_naming::{Bind, Naming};
use sv_rule::{Fault, laws};
use sv_seen::Wanted;
use sv_text::{Names, NoMemory};
use sv_visit_unit::{UnitJudge, UnitNode, ask_unit};

/// What was found about the names of a text.
#[derive(Drop)]
pub struct NamesFound {
    /// The node with an unknown name that counts.
    pub unknown: Option<Fault>,
    /// What each name means.
    pub binds: Items<Bind>,
}

impl<'a> NameJudge<'a> {
    fn enter_contract(&mut self, _c: &Contract) -> bool
        ensures before { result ≡ self.old.pass.clear }
        ensures state { state_of self.new ≡ opened_at self.old (OfContract _c.now) }
    {
        self.naming.enter_contract();
        self.open()
    }

    fn leave_contract(&mut self, _c: &Contract, before: bool) -> Result<(), NoMemory>
        ensures { OnOk result (state_of self.new ≡ closed_at self.old before (OfContract _c.now)) }
    {
        self.naming.leave_contract()?;
        self.close_quiet(before);
        Ok(())
    }

    fn leave_base(&mut self, b: &Base, before: bool) -> Result<(), NoMemory>
        ensures { OnOk result (state_of self.new ≡ closed_at self.old before (OfBase b.now)) }
    {
        let base = Use {
            wanted: Wanted::Base,
            name: b.name,
            at: b.span,
        };
        let known = note_use(&mut self.naming, Some(base))?;
        self.close(before, known, b.place);
        Ok(())
    }
}

impl<'a> UnitJudge for NameJudge<'a> {
    fn enter_unit(&mut self, site: UnitNode<'_>) -> Result<bool, NoMemory> {
        match site {
            UnitNode::Text(_) => Ok(self.open()),
            UnitNode::Constant(_) => Ok(self.open()),
            UnitNode::Contract(c) => Ok(self.enter_contract(c)),
            UnitNode::Base(_) => Ok(self.open()),
        }
    }

    fn leave_unit(&mut self, site: UnitNode<'_>, before: bool) -> Result<(), NoMemory> {
        match site {
            UnitNode::Text(_) => self.close_quiet(before),
            UnitNode::Constant(_) => self.close_quiet(before),
            UnitNode::Contract(c) => return self.leave_contract(c, before),
            UnitNode::Base(b) => return self.leave_base(b, before),
        }
        Ok(())
    }
}

/// Nothing was read, and nothing was asked.
fn begin<'a>(
    alloc: Global,
    names: &'a Names,
    text: &'a DeclaredText,
    lines: &'a [Items<u32>],
) -> NameJudge<'a>
    ensures { state_of result ≡ begun (nothing_known names.now text.now lines.now) }
{
    NameJudge {
        naming: Naming::new(alloc, names, text, lines),
        pass: Pass {
            clear: true,
            least: None,
        },
    }
}

/// What the names of a text mean, and the node with an unknown name that counts: of those that have no part with one, the first. `lines` has for each contract
/// the contracts whose names it sees, the most derived last.
pub fn names_of(
    alloc: Global,
    unit: &Unit,
    names: &Names,
    lines: &[Items<u32>],
) -> Result<NamesFound, NoMemory>
    ensures unknown { IfOk result (λ r. Least names_table (seen names_book (nothing_known names.now (declared_text unit.now) lines.now) (unit_walk unit.now)) r.unknown) }
    ensures binds { IfOk result (λ r. r.binds ≡ (behind names_book (nothing_known names.now (declared_text unit.now) lines.now) (unit_walk unit.now)).binds) }
{
    let text = declared_text(alloc, unit)?;
    let mut j = begin(alloc, names, &text, lines);
    laws::faults_are_ordered();
    ask_unit(&mut j, unit)?;
    Ok(NamesFound {
        unknown: j.pass.least,
        binds: j.naming.binds,
    })
}
