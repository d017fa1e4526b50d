ghost use Rattle.sv_gcl.specs.CommandShapes.{Seq, Choice, shape};
ghost use Rattle.sv_vc.specs.CodeStates.{MayWalk, IsMade, MayWalkAll, MayChoose, Walks, WalksAny, shapes_of, sorts_in};

use crate::joining::{agreement, versions};
use crate::nodes::added;
use crate::setting::set_marks;
use crate::state::{Scope, State};
use crate::steps::{assign, assume, check, forget};
use sqlite_items::Items;
use std::alloc::Global;
use sv_gcl::Cmd;
use sv_term::{Bank, Node, TermId};
use sv_text::NoMemory;

/// What is known where a run of the command ends, once `before` was known. Then the state is that at the end.
#[cycle(walk)]
pub fn walk(
    alloc: Global,
    bank: &mut Bank,
    scope: &Scope,
    cmd: &Cmd,
    before: TermId,
    state: &mut State,
) -> Result<TermId, NoMemory>
    requires made { IsMade bank.old (sorts_in bank.old scope.now) (shape cmd.now) }
    requires begins { MayWalk bank.old scope.now before state.old }
    ensures { Walks bank.old scope.now (shape cmd.now) before state.old result bank.new state.new }
{
    match cmd {
        Cmd::Assume(f) => assume(alloc, bank, scope, *f, before, state),
        Cmd::Check(label, f) => check(alloc, bank, scope, *label, *f, before, state),
        Cmd::Set(x, t) => assign(alloc, bank, scope, *x, *t, before, state),
        Cmd::Forget(x) => forget(bank, scope, *x, before, state),
        Cmd::Seq(cmds) => walk_all(alloc, bank, scope, cmds.as_slice(), before, state),
        Cmd::Choice(cmds) => walk_choice(alloc, bank, scope, cmds.as_slice(), before, state),
    }
}

/// The same of commands one after another.
#[cycle(walk)]
fn walk_all(
    alloc: Global,
    bank: &mut Bank,
    scope: &Scope,
    cmds: &[Cmd],
    before: TermId,
    state: &mut State,
) -> Result<TermId, NoMemory>
    requires { MayWalkAll bank.old scope.now (shapes_of cmds.now) before state.old }
    ensures { Walks bank.old scope.now (Seq (shapes_of cmds.now)) before state.old
        result bank.new state.new }
{
    let mut facts = added(bank, Node::Truth(true))?;
    for cmd in cmds {
        let known = added(bank, Node::And(before, facts))?;
        let more = walk(alloc, bank, scope, cmd, known, state)?;
        facts = added(bank, Node::And(facts, more))?;
    }
    Ok(facts)
}

/// The same of a choice among commands: each variable that one of them sets gets a version first.
#[cycle(walk)]
fn walk_choice(
    alloc: Global,
    bank: &mut Bank,
    scope: &Scope,
    cmds: &[Cmd],
    before: TermId,
    state: &mut State,
) -> Result<TermId, NoMemory>
    requires { MayWalkAll bank.old scope.now (shapes_of cmds.now) before state.old }
    ensures { Walks bank.old scope.now (Choice (shapes_of cmds.now)) before state.old
        result bank.new state.new }
{
    let list = set_marks(alloc, cmds, state.env.len())?;
    let marks = list.as_slice();
    let copy = Items::from_slice(alloc, state.env.as_slice())?;
    let env = copy.as_slice();
    let joined = versions(alloc, bank, scope, marks, env, &mut state.vars)?;
    let any = walk_each(
        alloc,
        bank,
        scope,
        cmds,
        before,
        state,
        marks,
        env,
        joined.as_slice(),
    )?;
    state.env = joined;
    Ok(any)
}

/// That one of the commands, each from `env`, ends where the marked variables are their versions.
#[cycle(walk)]
fn walk_each(
    alloc: Global,
    bank: &mut Bank,
    scope: &Scope,
    cmds: &[Cmd],
    before: TermId,
    state: &mut State,
    marks: &[bool],
    env: &[TermId],
    joined: &[TermId],
) -> Result<TermId, NoMemory>
    requires { MayChoose bank.old scope.now cmds.now before state.old marks.now env.now joined.now }
    ensures { WalksAny bank.old scope.now (shapes_of cmds.now) before state.old marks.now env.now
        joined.now result bank.new state.new }
{
    let mut any = added(bank, Node::Truth(false))?;
    for cmd in cmds {
        state.env = Items::from_slice(alloc, env)?;
        let facts = walk(alloc, bank, scope, cmd, before, state)?;
        let agreed = agreement(bank, marks, facts, state.env.as_slice(), joined)?;
        any = added(bank, Node::Or(any, agreed))?;
    }
    Ok(any)
}
