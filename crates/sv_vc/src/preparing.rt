ghost use Rattle.sv_term.specs.Banks.{IsSort, AreSorts};
ghost use Rattle.sv_vc.specs.CodeStates.{sorts_of};
ghost use Rattle.sv_vc.specs.Preparations.{Widens, WidensAll, Names};

use crate::nodes::{added, variable_at};
use sqlite_items::Items;
use std::alloc::Global;
use sv_gcl::GVar;
use sv_term::{Bank, Node, Range, SortId, SortNode, TermId};
use sv_text::NoMemory;

/// The sort, where two sorts of numbers count as one.
fn wide_of(bank: &mut Bank, sort: SortId) -> Result<SortId, NoMemory>
    requires { IsSort bank.old sort }
    ensures { Widens bank.old sort result bank.new }
{
    match bank.sort_node(sort) {
        SortNode::Num(_) => Ok(bank.sort(SortNode::Num(Range::Any))?),
        SortNode::Bool | SortNode::Arr(_) | SortNode::Tup(_) => Ok(sort),
    }
}

/// The variables, each as a version that joins the branches of a choice.
pub fn widened(alloc: Global, bank: &mut Bank, vars: &[GVar]) -> Result<Items<GVar>, NoMemory>
    requires { AreSorts bank.old (sorts_of vars.now) }
    ensures { WidensAll bank.old vars.now result bank.new }
{
    let mut list = Items::new(alloc);
    for var in vars {
        let sort = wide_of(bank, var.sort)?;
        list.push(GVar {
            name: var.name,
            sort,
        })?;
    }
    Ok(list)
}

/// The variables as terms.
pub fn own_terms(alloc: Global, bank: &mut Bank, vars: &[GVar]) -> Result<Items<TermId>, NoMemory>
    requires { AreSorts bank.old (sorts_of vars.now) }
    ensures { Names bank.old vars.now result bank.new }
{
    let mut env = Items::new(alloc);
    for i in 0..vars.len() {
        env.push(added(bank, Node::Var(i, variable_at(vars, i).sort))?)?;
    }
    Ok(env)
}
