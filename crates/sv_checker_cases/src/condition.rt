//! A condition from its nodes, each a name and numbers, the last the condition itself.

use std::alloc::Global;
use sv_term::{Bank, Node, Range, SortId, SortNode, TermId};
use sv_text::NoMemory;

/// A bank with the terms, and the number of the last; none where a node is unknown or doesn't fit.
pub fn read(alloc: Global, text: &str) -> Result<Option<(Bank, TermId)>, NoMemory> {
    let mut bank = Bank::new(alloc);
    let sorts = sorts(&mut bank)?;
    let mut last = None;
    for word in text.split(',') {
        let Some(node) = node(word, &sorts) else {
            return Ok(None);
        };
        if !bank.fits(&node) {
            return Ok(None);
        }
        last = Some(bank.add(node)?);
    }
    Ok(last.map(|goal| (bank, goal)))
}

/// Numbers, numbers from 0 on, bytes, truth values.
fn sorts(bank: &mut Bank) -> Result<[SortId; 4], NoMemory> {
    let any = bank.sort(SortNode::Num(Range::Any))?;
    let low = bank.sort(SortNode::Num(Range::Low))?;
    let byte = bank.sort(SortNode::Num(Range::Bits(false, 8)))?;
    let truth = bank.sort(SortNode::Bool)?;
    Ok([any, low, byte, truth])
}

fn number(word: &str) -> usize {
    word.parse::<usize>().unwrap_or(usize::MAX)
}

/// The node of a name and up to two numbers.
fn node(text: &str, sorts: &[SortId; 4]) -> Option<Node> {
    let (name, rest) = text.split_once(' ')?;
    let (first, second) = rest.split_once(' ').unwrap_or((rest, ""));
    let (a, b) = (number(first), number(second));
    match name {
        "lit" => Some(Node::Lit(false, a as u128)),
        "truth" => Some(Node::Truth(a == 1)),
        "var" => Some(Node::Var(a, *sorts.get(b)?)),
        "add" => Some(Node::Add(TermId(a), TermId(b))),
        "mul" => Some(Node::Mul(TermId(a), TermId(b))),
        "le" => Some(Node::Le(TermId(a), TermId(b))),
        "eq" => Some(Node::Eq(TermId(a), TermId(b))),
        "not" => Some(Node::Not(TermId(a))),
        "and" => Some(Node::And(TermId(a), TermId(b))),
        "or" => Some(Node::Or(TermId(a), TermId(b))),
        _ => None,
    }
}
