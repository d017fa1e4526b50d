use std::alloc::Global;
use sv_term::{Args, Node, SortId, TermId};
use sv_text::NoMemory;

/// The node of that name over these numbers, where there is one.
pub fn node(alloc: Global, name: &str, numbers: &[usize]) -> Result<Option<Node>, NoMemory> {
    if name == "tuple" {
        return Ok(tuple(alloc, numbers)?);
    }
    Ok(match numbers {
        [] => of_none(name),
        [a] => of_one(name, *a),
        [a, b] => of_two(name, *a, *b),
        [a, b, c] => of_three(name, TermId(*a), TermId(*b), TermId(*c)),
        _ => None,
    })
}

fn tuple(alloc: Global, numbers: &[usize]) -> Result<Option<Node>, NoMemory> {
    let Some((sort, args)) = numbers.split_first() else {
        return Ok(None);
    };
    let mut ids = Vec::new(alloc);
    for arg in args {
        ids.push(TermId(*arg))?;
    }
    Ok(Some(Node::Tup(SortId(*sort), Args::of(alloc, ids.as_slice())?)))
}

fn of_none(name: &str) -> Option<Node> {
    match name {
        "true" => Some(Node::Truth(true)),
        "false" => Some(Node::Truth(false)),
        _ => None,
    }
}

fn of_one(name: &str, a: usize) -> Option<Node> {
    match name {
        "number" => Some(Node::Lit(false, a as u128)),
        "minus" => Some(Node::Lit(true, a as u128)),
        "not" => Some(Node::Not(TermId(a))),
        "sum" => Some(Node::Sum(TermId(a))),
        _ => None,
    }
}

fn of_two(name: &str, a: usize, b: usize) -> Option<Node> {
    match name {
        "var" => Some(Node::Var(a, SortId(b))),
        "const" => Some(Node::Const(SortId(a), TermId(b))),
        "get" => Some(Node::Get(a, TermId(b))),
        "signed" => Some(Node::Wrap(true, bits(a), TermId(b))),
        "unsigned" => Some(Node::Wrap(false, bits(a), TermId(b))),
        _ => of_terms(name, TermId(a), TermId(b)),
    }
}

fn bits(count: usize) -> u16 {
    u16::try_from(count).unwrap_or(u16::MAX)
}

fn of_terms(name: &str, a: TermId, b: TermId) -> Option<Node> {
    match name {
        "add" => Some(Node::Add(a, b)),
        "sub" => Some(Node::Sub(a, b)),
        "mul" => Some(Node::Mul(a, b)),
        "div" => Some(Node::Div(a, b)),
        "mod" => Some(Node::Mod(a, b)),
        _ => of_claims(name, a, b),
    }
}

fn of_claims(name: &str, a: TermId, b: TermId) -> Option<Node> {
    match name {
        "le" => Some(Node::Le(a, b)),
        "eq" => Some(Node::Eq(a, b)),
        "and" => Some(Node::And(a, b)),
        "or" => Some(Node::Or(a, b)),
        "sel" => Some(Node::Sel(a, b)),
        _ => None,
    }
}

fn of_three(name: &str, a: TermId, b: TermId, c: TermId) -> Option<Node> {
    match name {
        "ite" => Some(Node::Ite(a, b, c)),
        "sto" => Some(Node::Sto(a, b, c)),
        "mix" => Some(Node::Mix(a, b, c)),
        _ => None,
    }
}
