ghost use Rattle.std.specs.Prelude.{◌≡◌, length, IfOk};
ghost use Rattle.sv_term.specs.Banks.{args};
ghost use Rattle.sv_goal_room.specs.GoalFilling.{shape_for, AreAmong, ArePlaces};

use std::alloc::Global;
use sv_goal_terms::{GoalTerms, arg};
use sv_term::Node;
use sv_term_room::Shape;
use sv_text::NoMemory;

/// The shape of a node whose term has the sort of that number. A sort that a node names is the sort of its term.
pub(crate) fn shape_of(node: &Node, sort: usize) -> Shape
    ensures { result ≡ shape_for node.now sort }
{
    match node {
        Node::Lit(negative, m) => Shape::Lit(*negative, *m),
        Node::Truth(b) => Shape::Truth(*b),
        Node::Var(x, _) => Shape::Var(*x, sort),
        Node::Add(_, _) => Shape::Add,
        Node::Sub(_, _) => Shape::Sub,
        Node::Mul(_, _) => Shape::Mul,
        Node::Div(_, _) => Shape::Div,
        Node::Mod(_, _) => Shape::Mod,
        Node::Wrap(signed, bits, _) => Shape::Wrap(*signed, *bits),
        Node::Le(_, _) => Shape::Le,
        Node::Eq(_, _) => Shape::Eq,
        Node::Not(_) => Shape::Not,
        Node::And(_, _) => Shape::And,
        Node::Or(_, _) => Shape::Or,
        Node::Ite(_, _, _) => Shape::Ite,
        Node::Sel(_, _) => Shape::Sel,
        Node::Sto(_, _, _) => Shape::Sto,
        Node::Const(_, _) => Shape::Const(sort),
        Node::Mix(_, _, _) => Shape::Mix,
        Node::Tup(_, _) => Shape::Tup(sort),
        Node::Get(k, _) => Shape::Get(*k),
        Node::Sum(_) => Shape::Sum,
    }
}

pub(crate) fn arg_count(node: &Node) -> usize
    ensures { result ≡ length (args node.now) }
{
    let mut count = 0;
    while let Some(_) = arg(node, count) {
        count += 1;
    }
    count
}

/// The places of a node's arguments among the terms.
pub(crate) fn arg_numbers(
    alloc: Global,
    node: &Node,
    terms: &GoalTerms,
) -> Result<Vec<usize>, NoMemory>
    requires { AreAmong terms.now (args node.now) }
    ensures { IfOk result (λ v. ArePlaces terms.now (args node.now) v.items) }
{
    let mut numbers = Vec::new(alloc);
    while let Some(arg) = arg(node, numbers.len()) {
        numbers.push(terms.number_of(arg).unwrap())?;
    }
    Ok(numbers)
}
