use crate::naming;
use std::alloc::Global;
use std::fmt;
use std::fmt::{Display, Formatter, Write};
use sv_term::{Bank, Node};
use sv_text::NoMemory;

/// What comes of a step.
#[derive(Drop)]
pub enum Answer {
    /// The number of the term, or how many terms there are.
    Number(usize),
    /// The node doesn't fit.
    Misfit,
    /// There is no such step.
    Unknown,
}

impl Display for Answer {
    fn fmt<W: Write>(&self, f: &mut Formatter<W>) -> fmt::Result {
        match self {
            Answer::Number(number) => write!(f, "{number}"),
            Answer::Misfit => write!(f, "misfit"),
            Answer::Unknown => write!(f, "unknown"),
        }
    }
}

/// Takes the step that a line says: a name and numbers.
pub fn taken(alloc: Global, bank: &mut Bank, line: &str) -> Result<Answer, NoMemory> {
    let (name, rest) = line.split_once(' ').unwrap_or((line, ""));
    let numbers = numbers(alloc, rest)?;
    match name {
        "copy" => Ok(Answer::Number(copied(bank)?)),
        "grow" => Ok(Answer::Number(grown(alloc, &numbers)?)),
        _ => match naming::node(alloc, name, &numbers)? {
            Some(node) => Ok(added(bank, node)?),
            None => Ok(Answer::Unknown),
        },
    }
}

fn numbers(alloc: Global, text: &str) -> Result<Vec<usize>, NoMemory> {
    let mut numbers = Vec::new(alloc);
    for word in text.split_whitespace() {
        numbers.push(word.parse::<usize>().unwrap_or(usize::MAX))?;
    }
    Ok(numbers)
}

/// Puts a copy in the place of the bank, and says how many terms it has.
fn copied(bank: &mut Bank) -> Result<usize, NoMemory> {
    *bank = bank.copied()?;
    Ok(bank.len())
}

/// How many terms a new bank has, once so many were added and half of them were there.
fn grown(alloc: Global, numbers: &[usize]) -> Result<usize, NoMemory> {
    let mut bank = Bank::new(alloc);
    for i in 0..numbers.first().copied().unwrap_or(0) {
        bank.add(Node::Lit(false, (i / 2) as u128))?;
    }
    Ok(bank.len())
}

/// Adds the node where it fits.
fn added(bank: &mut Bank, node: Node) -> Result<Answer, NoMemory> {
    if !bank.fits(&node) {
        return Ok(Answer::Misfit);
    }
    let number = bank.add(node)?;
    Ok(Answer::Number(number.0))
}
