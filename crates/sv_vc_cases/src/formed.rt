ghost use Rattle.std.specs.Prelude.{◌≡◌, ◌<◌, IsTrue, length, map, slice_index_or};
ghost use Rattle.sv_term.specs.Sorts.{Any, BoolSort, NumSort};
ghost use Rattle.sv_term.specs.Banks.{IsSort, AreSorts, sort, wide};
ghost use Rattle.sv_gcl.specs.CommandShapes.{shape, shaped};
ghost use Rattle.sv_gcl.specs.FormedCommands.{IsLowered};
ghost use Rattle.sv_vc_cases.specs.FormedTests.{IsOneOf, NamesOne, AreFine, IsTruth, MaySet, IsSettled, AreSettled, sorts_of};

use sv_gcl::{Cmd, GVar, Lowered};
use sv_term::{Bank, Node, SortId, SortNode, TermId};

/// Whether the command is formed, in a bank that has no other variables than those of the command, and no constant arrays.
pub fn is_formed(l: &Lowered) -> bool
    ensures { IsTrue result → IsLowered l.now }
{
    let vars = l.vars.as_slice();
    if !sorts_are_there(&l.bank, vars) {
        return false;
    }
    if !terms_are_fine(&l.bank, vars) {
        return false;
    }
    is_settled(&l.bank, vars, &l.cmd)
}

fn sorts_are_there(bank: &Bank, vars: &[GVar]) -> bool
    ensures { IsTrue result → AreSorts bank.now (sorts_of vars.now) }
{
    for var in vars {
        if !bank.fits(&Node::Var(0, var.sort)) {
            return false;
        }
    }
    true
}

fn variable_at(vars: &[GVar], x: usize) -> GVar
    requires { x < length vars.now }
    ensures { result ≡ slice_index_or vars.now x result }
{
    vars[x]
}

fn is_same(s: SortId, r: SortId) -> bool
    ensures { IsTrue result → s ≡ r }
{
    s.0 == r.0
}

fn names_one(vars: &[GVar], x: usize, sort: SortId) -> bool
    ensures { IsTrue result → NamesOne vars.now x sort }
{
    if x >= vars.len() {
        return false;
    }
    is_same(variable_at(vars, x).sort, sort)
}

/// Whether the node is no constant array, and one of the variables if it is a variable.
fn is_one_of(node: &Node, vars: &[GVar]) -> bool
    ensures { IsTrue result → IsOneOf vars.now node.now }
{
    match node {
        Node::Var(x, sort) => names_one(vars, *x, *sort),
        Node::Const(_, _) => false,
        _ => true,
    }
}

/// Whether each term is over the variables, and plain where it is an array or a tuple.
fn terms_are_fine(bank: &Bank, vars: &[GVar]) -> bool
    ensures { IsTrue result → AreFine bank.now vars.now (length bank.now.nodes) }
{
    for i in 0..bank.len() {
        if !is_one_of(bank.node_of(TermId(i)), vars) {
            return false;
        }
    }
    true
}

fn is_truth(bank: &Bank, f: TermId) -> bool
    ensures { IsTrue result → IsTruth bank.now f }
{
    if f.0 >= bank.len() {
        return false;
    }
    is_bool_sort(bank, bank.sort_of(f))
}

fn is_bool_sort(bank: &Bank, s: SortId) -> bool
    requires { IsSort bank.now s }
    ensures { IsTrue result → sort bank.now s ≡ BoolSort }
{
    match bank.sort_node(s) {
        SortNode::Bool => true,
        _ => false,
    }
}

fn is_number_sort(bank: &Bank, s: SortId) -> bool
    requires { IsSort bank.now s }
    ensures { IsTrue result → wide (sort bank.now s) ≡ NumSort Any }
{
    match bank.sort_node(s) {
        SortNode::Num(_) => true,
        _ => false,
    }
}

/// Whether the sorts are one, where two sorts of numbers count as one.
fn are_kin(bank: &Bank, s: SortId, r: SortId) -> bool
    requires one { IsSort bank.now s }
    requires other { IsSort bank.now r }
    ensures { IsTrue result → wide (sort bank.now s) ≡ wide (sort bank.now r) }
{
    if is_same(s, r) {
        return true;
    }
    if !is_number_sort(bank, s) {
        return false;
    }
    is_number_sort(bank, r)
}

fn may_set(bank: &Bank, vars: &[GVar], x: usize, t: TermId) -> bool
    requires { AreSorts bank.now (sorts_of vars.now) }
    ensures { IsTrue result → MaySet bank.now vars.now x t }
{
    if t.0 >= bank.len() {
        return false;
    }
    if x >= vars.len() {
        return false;
    }
    are_kin(bank, bank.sort_of(t), variable_at(vars, x).sort)
}

/// Whether claims are truth values, and variables are there and set to terms of their sorts.
#[cycle(settled)]
fn is_settled(bank: &Bank, vars: &[GVar], cmd: &Cmd) -> bool
    requires { AreSorts bank.now (sorts_of vars.now) }
    ensures { IsTrue result → IsSettled bank.now vars.now (shape cmd.now) }
{
    match cmd {
        Cmd::Assume(f) | Cmd::Check(_, f) => is_truth(bank, *f),
        Cmd::Set(x, t) => may_set(bank, vars, *x, *t),
        Cmd::Forget(x) => *x < vars.len(),
        Cmd::Seq(cmds) | Cmd::Choice(cmds) => are_settled(bank, vars, cmds.as_slice()),
    }
}

#[cycle(settled)]
fn are_settled(bank: &Bank, vars: &[GVar], cmds: &[Cmd]) -> bool
    requires { AreSorts bank.now (sorts_of vars.now) }
    ensures { IsTrue result → AreSettled bank.now vars.now (shaped (map shape cmds.now)) }
{
    for cmd in cmds {
        if !is_settled(bank, vars, cmd) {
            return false;
        }
    }
    true
}
