ghost use Rattle.std.specs.Prelude.{◌≡◌, ◌≤◌, ◌+◌, ◌<◌, IfOk, length, slice_index_or};
ghost use Rattle.sv_term.specs.Banks.{Fits, Keeps, Stands, args as args_in, tree};
ghost use Rattle.sv_vc.specs.NodeShapes.{IsLike, variable_in};

use sqlite_items::Items;
use std::alloc::Global;
use sv_gcl::GVar;
use sv_term::{Args, Bank, Node, TermId};
use sv_text::NoMemory;

/// The number of the term of that node, which is the only one that may be new in the bank.
pub fn added(bank: &mut Bank, node: Node) -> Result<TermId, NoMemory>
    requires { Fits bank.old node }
    ensures kept { Keeps bank.old bank.new }
    ensures stands { IfOk result (λ k. Stands bank.new k (tree bank.old node)) }
    ensures size { IfOk result (λ k. length bank.new.nodes ≤ length bank.old.nodes + 1) }
{
    Ok(bank.add(node)?)
}

/// The number of the variable that the node is.
pub fn variable_of(node: &Node) -> Option<usize>
    ensures { result ≡ variable_in node.now }
{
    match node {
        Node::Var(x, _) => Some(*x),
        _ => None,
    }
}

/// What the variable stands for.
pub fn value_of(env: &[TermId], x: usize) -> TermId
    requires { x < length env.now }
    ensures { result ≡ slice_index_or env.now x record { 0 = 0 } }
{
    env[x]
}

/// The variable of that number.
pub fn variable_at(vars: &[GVar], x: usize) -> GVar
    requires { x < length vars.now }
    ensures { result ≡ slice_index_or vars.now x result }
{
    vars[x]
}

/// The arguments of a node, in order.
pub fn args_of(alloc: Global, node: &Node) -> Result<Items<TermId>, NoMemory>
    ensures { IfOk result (λ r. r ≡ args_in node.now) }
{
    match node {
        Node::Lit(_, _) | Node::Truth(_) | Node::Var(_, _) => Ok(Items::new(alloc)),
        Node::Wrap(_, _, a) | Node::Not(a) | Node::Const(_, a) | Node::Get(_, a) | Node::Sum(a) =>
            Ok(Items::from_slice(alloc, &[*a])?),
        Node::Add(a, b)
        | Node::Sub(a, b)
        | Node::Mul(a, b)
        | Node::Div(a, b)
        | Node::Mod(a, b)
        | Node::Le(a, b)
        | Node::Eq(a, b)
        | Node::And(a, b)
        | Node::Or(a, b)
        | Node::Sel(a, b) => Ok(Items::from_slice(alloc, &[*a, *b])?),
        Node::Ite(a, b, c) | Node::Sto(a, b, c) | Node::Mix(a, b, c) => {
            Ok(Items::from_slice(alloc, &[*a, *b, *c])?)
        }
        Node::Tup(_, list) => Ok(Items::from_slice(alloc, list.as_slice())?),
    }
}

/// The node with other arguments, as many as it has.
pub fn with_args(alloc: Global, node: &Node, list: &[TermId]) -> Result<Node, NoMemory>
    requires { length list.now ≡ length (args_in node.now) }
    ensures { IfOk result (λ r. IsLike node.now list.now r) }
{
    Ok(match node {
        Node::Lit(negative, m) => Node::Lit(*negative, *m),
        Node::Truth(b) => Node::Truth(*b),
        Node::Var(x, sort) => Node::Var(*x, *sort),
        Node::Add(_, _) => Node::Add(list[0], list[1]),
        Node::Sub(_, _) => Node::Sub(list[0], list[1]),
        Node::Mul(_, _) => Node::Mul(list[0], list[1]),
        Node::Div(_, _) => Node::Div(list[0], list[1]),
        Node::Mod(_, _) => Node::Mod(list[0], list[1]),
        Node::Wrap(signed, bits, _) => Node::Wrap(*signed, *bits, list[0]),
        Node::Le(_, _) => Node::Le(list[0], list[1]),
        Node::Eq(_, _) => Node::Eq(list[0], list[1]),
        Node::Not(_) => Node::Not(list[0]),
        Node::And(_, _) => Node::And(list[0], list[1]),
        Node::Or(_, _) => Node::Or(list[0], list[1]),
        Node::Ite(_, _, _) => Node::Ite(list[0], list[1], list[2]),
        Node::Sel(_, _) => Node::Sel(list[0], list[1]),
        Node::Sto(_, _, _) => Node::Sto(list[0], list[1], list[2]),
        Node::Const(sort, _) => Node::Const(*sort, list[0]),
        Node::Mix(_, _, _) => Node::Mix(list[0], list[1], list[2]),
        Node::Tup(sort, _) => Node::Tup(*sort, Args::of(alloc, list)?),
        Node::Get(k, _) => Node::Get(*k, list[0]),
        Node::Sum(_) => Node::Sum(list[0]),
    })
}
