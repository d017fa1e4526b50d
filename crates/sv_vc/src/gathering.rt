ghost use Rattle.std.specs.Prelude.{◌≡◌, IfOk};
ghost use Rattle.std.specs.BTreeMap.{get};
ghost use Rattle.sv_core.specs.contracts.label.LabelOrd.TheImpl.{ghosts as by};
ghost use Rattle.sv_term.specs.Banks.{Keeps};
ghost use Rattle.sv_vc.specs.Gatherings.{MayGather, Gathers, Lists, held};

use crate::answer::Condition;
use crate::nodes::added;
use sqlite_items::Items;
use std::alloc::Global;
use std::collections::BTreeMap;
use sv_core::Label;
use sv_term::{Bank, Node, TermId};
use sv_text::NoMemory;

/// What is held for the label; `nothing` where there is nothing.
fn held_for(all: &BTreeMap<Label, TermId>, label: Label, nothing: TermId) -> TermId
    ensures { result ≡ held (get by.cmp all.now) nothing label }
{
    match all.get(&label) {
        Some(number) => *number,
        None => nothing,
    }
}

/// For each label the conjunction of its formulas, where `nothing` is `true`.
fn gathered(
    alloc: Global,
    bank: &mut Bank,
    found: &[Condition],
    nothing: TermId,
) -> Result<BTreeMap<Label, TermId>, NoMemory>
    requires { MayGather bank.old found.now nothing }
    ensures kept { Keeps bank.old bank.new }
    ensures holds { IfOk result (λ m. Gathers bank.old found.now nothing (get by.cmp m) bank.new) }
{
    let mut all = BTreeMap::new(alloc);
    for one in found {
        let before = held_for(&all, one.label, nothing);
        let both = added(bank, Node::And(before, one.formula))?;
        all.insert(one.label, both)?;
    }
    Ok(all)
}

/// The conditions of the labels, in order.
pub fn listed(
    alloc: Global,
    bank: &mut Bank,
    labels: &[Label],
    found: &[Condition],
    nothing: TermId,
) -> Result<Items<Condition>, NoMemory>
    requires { MayGather bank.old found.now nothing }
    ensures { Lists bank.old labels.now found.now result bank.new }
{
    let all = gathered(alloc, bank, found, nothing)?;
    let mut list = Items::new(alloc);
    for label in labels {
        let formula = held_for(&all, *label, nothing);
        list.push(Condition {
            label: *label,
            formula,
        })?;
    }
    Ok(list)
}
