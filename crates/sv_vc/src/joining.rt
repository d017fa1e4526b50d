ghost use Rattle.sv_term.specs.Banks.{IsBool, AreKin};
ghost use Rattle.sv_vc.specs.JoinSteps.{MayJoin, JoinsOne, MayJoinAll, Joins, AgreesOne, MayAgree, Agrees};

use crate::nodes::{added, variable_at};
use crate::state::Scope;
use sqlite_items::Items;
use std::alloc::Global;
use sv_gcl::GVar;
use sv_term::{Bank, Node, TermId};
use sv_text::NoMemory;

#[tactic(auto, using(crate::proofs::Extending::extends_same))]
/// What the variable x stands for: a fresh version where it is set, and as before elsewhere.
fn version(
    bank: &mut Bank,
    scope: &Scope,
    is_set: bool,
    x: usize,
    now: TermId,
    vars: &mut Items<GVar>,
) -> Result<TermId, NoMemory>
    requires { MayJoin bank.old scope.now x now }
    ensures { JoinsOne bank.old scope.now is_set x now vars.old result bank.new vars.new }
{
    if !is_set {
        return Ok(now);
    }
    let var = variable_at(scope.joined.as_slice(), x);
    let fresh = added(bank, Node::Var(vars.len(), var.sort))?;
    vars.push(var)?;
    Ok(fresh)
}

/// What each variable stands for: a fresh version where it is marked, and as before elsewhere.
pub fn versions(
    alloc: Global,
    bank: &mut Bank,
    scope: &Scope,
    marks: &[bool],
    env: &[TermId],
    vars: &mut Items<GVar>,
) -> Result<Items<TermId>, NoMemory>
    requires { MayJoinAll bank.old scope.now marks.now env.now }
    ensures { Joins bank.old scope.now marks.now env.now vars.old result bank.new vars.new }
{
    let mut now = Items::new(alloc);
    for i in 0..env.len() {
        let one = version(bank, scope, marks[i], i, env[i], vars)?;
        now.push(one)?;
    }
    Ok(now)
}

/// The facts, and that the two terms are equal where the variable is set.
fn agreed_on(
    bank: &mut Bank,
    is_set: bool,
    facts: TermId,
    a: TermId,
    b: TermId,
) -> Result<TermId, NoMemory>
    requires truth { IsBool bank.old facts }
    requires kin { AreKin bank.old a b }
    ensures { AgreesOne bank.old is_set facts a b result bank.new }
{
    if !is_set {
        return Ok(facts);
    }
    let same = added(bank, Node::Eq(a, b))?;
    Ok(added(bank, Node::And(facts, same))?)
}

/// The facts, and that the versions which are marked are what a branch made of the variables.
pub fn agreement(
    bank: &mut Bank,
    marks: &[bool],
    facts: TermId,
    env: &[TermId],
    versions: &[TermId],
) -> Result<TermId, NoMemory>
    requires { MayAgree bank.old marks.now facts env.now versions.now }
    ensures { Agrees bank.old marks.now facts env.now versions.now result bank.new }
{
    let mut all = facts;
    for i in 0..env.len() {
        all = agreed_on(bank, marks[i], all, env[i], versions[i])?;
    }
    Ok(all)
}
