ghost use Rattle.sv_term.specs.Banks.{IsSort};

use crate::formed::is_formed;
use crate::reading::{Line, read};
use crate::values::{Value, evaluated};
use std::alloc::Global;
use std::fmt;
use std::fmt::{Display, Formatter, Write};
use sv_term::{Bank, Node, Range, SortId, SortNode, TermId};
use sv_text::NoMemory;
use sv_vc::{Conditions, conditions};

/// What comes of a line.
#[derive(Drop)]
pub enum Answer {
    /// For each label whether its condition holds for all small values.
    Holds(Vec<bool>),
    /// How many terms the answered bank has, and how many it may have at most.
    Terms(usize, usize),
    /// The command is not formed.
    Misfit,
    /// The line is no command.
    Unknown,
}

impl Display for Answer {
    fn fmt<W: Write>(&self, f: &mut Formatter<W>) -> fmt::Result {
        match self {
            Answer::Misfit => write!(f, " misfit"),
            Answer::Unknown => write!(f, " unknown"),
            Answer::Terms(terms, most) => write!(f, " {terms} of at most {most}"),
            Answer::Holds(list) => {
                for holds in list {
                    write!(f, " {}", if *holds { "holds" } else { "fails" })?;
                }
                Ok(())
            }
        }
    }
}

/// The small values of a sort.
fn small(alloc: Global, bank: &Bank, sort: SortId) -> Result<Vec<Value>, NoMemory>
    requires { IsSort bank.now sort }
{
    let mut values = Vec::new(alloc);
    match bank.sort_node(sort) {
        SortNode::Num(Range::Any) => {
            for n in -1..4 {
                values.push(Value::Number(n))?;
            }
        }
        SortNode::Num(_) => {
            for n in [0, 1, 2, 255] {
                values.push(Value::Number(n))?;
            }
        }
        SortNode::Bool => {
            values.push(Value::Truth(false))?;
            values.push(Value::Truth(true))?;
        }
        SortNode::Arr(_) => {
            for n in 0..3 {
                values.push(Value::Array(n, 0))?;
                values.push(Value::Array(n, 2))?;
            }
        }
        SortNode::Tup(_) => {
            for n in 0..3 {
                values.push(Value::Pair(n, false))?;
                values.push(Value::Pair(n, true))?;
            }
        }
    }
    Ok(values)
}

/// Marks the arguments of a node.
fn mark_args(node: &Node, marks: &mut Vec<bool>) {
    match node {
        Node::Add(a, b)
        | Node::Le(a, b)
        | Node::Eq(a, b)
        | Node::And(a, b)
        | Node::Or(a, b)
        | Node::Sel(a, b) => {
            mark(marks, *a);
            mark(marks, *b);
        }
        Node::Not(a) | Node::Get(_, a) => mark(marks, *a),
        Node::Ite(a, b, c) | Node::Sto(a, b, c) => {
            mark(marks, *a);
            mark(marks, *b);
            mark(marks, *c);
        }
        Node::Tup(_, args) => {
            for arg in args.as_slice() {
                mark(marks, *arg);
            }
        }
        _ => {}
    }
}

fn mark(marks: &mut Vec<bool>, term: TermId) {
    if term.0 < marks.len() {
        marks[term.0] = true;
    }
}

/// A variable that a term reads: the number of its node, and its small values.
#[derive(Drop)]
struct Read {
    number: usize,
    values: Vec<Value>,
}

/// The variables that the term reads.
fn reads(alloc: Global, bank: &Bank, term: TermId) -> Result<Vec<Read>, NoMemory> {
    let mut marks = Vec::new(alloc);
    for _ in 0..bank.len() {
        marks.push(false)?;
    }
    mark(&mut marks, term);
    let mut list = Vec::new(alloc);
    for back in 0..bank.len() {
        let number = bank.len() - 1 - back;
        if marks.get(number).copied().unwrap_or(false) {
            let node = bank.node_of(TermId(number));
            mark_args(node, &mut marks);
            if let Node::Var(_, _) = node {
                let values = small(alloc, bank, bank.sort_of(TermId(number)))?;
                list.push(Read { number, values })?;
            }
        }
    }
    Ok(list)
}

/// How many ways there are to give these variables small values, up to a million.
fn ways(list: &[Read]) -> usize {
    let mut count: usize = 1;
    for read in list {
        count = count.saturating_mul(read.values.len()).min(1_000_000);
    }
    count
}

/// The values of the nodes of variables, the one way of that number.
fn given(alloc: Global, bank: &Bank, list: &[Read], way: usize) -> Result<Vec<Value>, NoMemory> {
    let mut values = Vec::new(alloc);
    for _ in 0..bank.len() {
        values.push(Value::Number(0))?;
    }
    let mut rest = way;
    for read in list {
        let count = read.values.len().max(1);
        let value = read
            .values
            .get(rest % count)
            .copied()
            .unwrap_or(Value::Number(0));
        if read.number < values.len() {
            values[read.number] = value;
        }
        rest /= count;
    }
    Ok(values)
}

/// Whether the formula holds for all small values of the variables that it reads.
fn holds(alloc: Global, bank: &Bank, formula: TermId) -> Result<bool, NoMemory> {
    let list = reads(alloc, bank, formula)?;
    for way in 0..ways(list.as_slice()) {
        let values = given(alloc, bank, list.as_slice(), way)?;
        if !evaluated(alloc, bank, formula, values.as_slice())?.truth() {
            return Ok(false);
        }
    }
    Ok(true)
}

/// How many terms the answered bank may have.
fn most(line: &Line) -> usize {
    let terms = line.lowered.bank.len();
    let work = line
        .commands
        .saturating_add(line.lowered.labels.len())
        .saturating_add(1);
    let width = line
        .lowered
        .vars
        .len()
        .saturating_add(terms)
        .saturating_add(1);
    terms.saturating_add(work.saturating_mul(width).saturating_mul(16))
}

/// Which conditions hold for all small values.
fn held(alloc: Global, made: &Conditions) -> Result<Answer, NoMemory> {
    let mut list = Vec::new(alloc);
    for condition in made.list.as_slice() {
        let holds = holds(alloc, &made.bank, condition.formula)?;
        list.push(holds)?;
    }
    Ok(Answer::Holds(list))
}

/// What comes of the command of a line; behind the word `count` how many terms its conditions take.
pub fn judged(alloc: Global, text: &str) -> Result<Answer, NoMemory> {
    let (counts, words) = match text.strip_prefix("count ") {
        Some(words) => (true, words),
        None => (false, text),
    };
    let Some(line) = read(alloc, words)? else {
        return Ok(Answer::Unknown);
    };
    if !is_formed(&line.lowered) {
        return Ok(Answer::Misfit);
    }
    let most = most(&line);
    let made = conditions(alloc, line.lowered)?;
    if counts {
        return Ok(Answer::Terms(made.bank.len(), most));
    }
    Ok(held(alloc, &made)?)
}
