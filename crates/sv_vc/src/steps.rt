ghost use Rattle.sv_gcl.specs.CommandShapes.{Assume, Check, Set, Forget};
ghost use Rattle.sv_vc.specs.CodeStates.{MayWalk, IsMade, Walks, sorts_in};

use crate::answer::Condition;
use crate::nodes::{added, variable_at};
use crate::replacing::replaced;
use crate::state::{Scope, State};
use std::alloc::Global;
use sv_core::Label;
use sv_term::{Bank, Node, TermId};
use sv_text::NoMemory;

/// What is known behind `Assume`: the claim, for what the variables stand for.
pub fn assume(
    alloc: Global,
    bank: &mut Bank,
    scope: &Scope,
    f: TermId,
    before: TermId,
    state: &mut State,
) -> Result<TermId, NoMemory>
    requires made { IsMade bank.old (sorts_in bank.old scope.now) (Assume f) }
    requires begins { MayWalk bank.old scope.now before state.old }
    ensures { Walks bank.old scope.now (Assume f) before state.old result bank.new state.new }
{
    Ok(replaced(alloc, bank, state.env.as_slice(), f)?)
}

/// The same behind `Check`, with the formula that what is known before implies the claim.
pub fn check(
    alloc: Global,
    bank: &mut Bank,
    scope: &Scope,
    label: Label,
    f: TermId,
    before: TermId,
    state: &mut State,
) -> Result<TermId, NoMemory>
    requires made { IsMade bank.old (sorts_in bank.old scope.now) (Check label f) }
    requires begins { MayWalk bank.old scope.now before state.old }
    ensures { Walks bank.old scope.now (Check label f) before state.old result bank.new state.new }
{
    let holds = replaced(alloc, bank, state.env.as_slice(), f)?;
    let fails = added(bank, Node::Not(holds))?;
    let refuted = added(bank, Node::And(before, fails))?;
    let formula = added(bank, Node::Not(refuted))?;
    state.found.push(Condition { label, formula })?;
    Ok(holds)
}

/// Lets the variable x stand for the term.
pub fn assign(
    alloc: Global,
    bank: &mut Bank,
    scope: &Scope,
    x: usize,
    t: TermId,
    before: TermId,
    state: &mut State,
) -> Result<TermId, NoMemory>
    requires made { IsMade bank.old (sorts_in bank.old scope.now) (Set x t) }
    requires begins { MayWalk bank.old scope.now before state.old }
    ensures { Walks bank.old scope.now (Set x t) before state.old result bank.new state.new }
{
    let now = replaced(alloc, bank, state.env.as_slice(), t)?;
    let nothing = added(bank, Node::Truth(true))?;
    state.env.set(x, now);
    Ok(nothing)
}

/// Lets the variable x stand for a fresh one of its sort.
pub fn forget(
    bank: &mut Bank,
    scope: &Scope,
    x: usize,
    before: TermId,
    state: &mut State,
) -> Result<TermId, NoMemory>
    requires made { IsMade bank.old (sorts_in bank.old scope.now) (Forget x) }
    requires begins { MayWalk bank.old scope.now before state.old }
    ensures { Walks bank.old scope.now (Forget x) before state.old result bank.new state.new }
{
    let var = variable_at(scope.given.as_slice(), x);
    let fresh = added(bank, Node::Var(state.vars.len(), var.sort))?;
    let nothing = added(bank, Node::Truth(true))?;
    state.vars.push(var)?;
    state.env.set(x, fresh);
    Ok(nothing)
}
