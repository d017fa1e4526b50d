use std::alloc::Global;
use sv_term::{Args, Bank, Node, TermId};
use sv_text::NoMemory;

/// The value of a term: an array has its entries at 0 and at 1, and 0 everywhere else.
#[derive(Clone, Copy, PartialEq, Eq, Drop)]
pub enum Value {
    Number(i64),
    Truth(bool),
    Array(i64, i64),
    Pair(i64, bool),
}

impl Value {
    pub fn number(self) -> i64 {
        match self {
            Value::Number(n) | Value::Pair(n, _) => n,
            Value::Truth(_) | Value::Array(_, _) => 0,
        }
    }

    pub fn truth(self) -> bool {
        match self {
            Value::Truth(b) | Value::Pair(_, b) => b,
            Value::Number(_) | Value::Array(_, _) => false,
        }
    }

    fn entry(self, index: i64) -> i64 {
        match self {
            Value::Array(first, second) => match index {
                0 => first,
                1 => second,
                _ => 0,
            },
            _ => 0,
        }
    }

    fn with_entry(self, index: i64, entry: i64) -> Value {
        match self {
            Value::Array(first, second) => match index {
                0 => Value::Array(entry, second),
                1 => Value::Array(first, entry),
                _ => self,
            },
            _ => self,
        }
    }
}

/// The values of the terms so far, by number.
fn at(values: &[Value], term: TermId) -> Value {
    values.get(term.0).copied().unwrap_or(Value::Number(0))
}

fn literal(negative: bool, m: u128) -> Value {
    let number = i64::try_from(m).unwrap_or(0);
    Value::Number(if negative {
        0_i64.wrapping_sub(number)
    } else {
        number
    })
}

fn pair(values: &[Value], args: &Args) -> Value {
    match args.as_slice() {
        [a, b] => Value::Pair(at(values, *a).number(), at(values, *b).truth()),
        _ => Value::Number(0),
    }
}

/// The value of a node over those before it; the node of a variable has the value that is given.
fn value_of(node: &Node, values: &[Value], given: Value) -> Value {
    match node {
        Node::Lit(negative, m) => literal(*negative, *m),
        Node::Truth(b) => Value::Truth(*b),
        Node::Var(_, _) => given,
        Node::Add(a, b) => Value::Number(
            at(values, *a)
                .number()
                .wrapping_add(at(values, *b).number()),
        ),
        Node::Le(a, b) => Value::Truth(at(values, *a).number() <= at(values, *b).number()),
        Node::Eq(a, b) => Value::Truth(at(values, *a) == at(values, *b)),
        Node::Not(p) => Value::Truth(!at(values, *p).truth()),
        Node::And(p, q) => Value::Truth(at(values, *p).truth() && at(values, *q).truth()),
        Node::Or(p, q) => Value::Truth(at(values, *p).truth() || at(values, *q).truth()),
        Node::Ite(c, a, b) => at(values, if at(values, *c).truth() { *a } else { *b }),
        Node::Sel(a, i) => Value::Number(at(values, *a).entry(at(values, *i).number())),
        Node::Sto(a, i, v) => at(values, *a).with_entry(
            at(values, *i).number(),
            at(values, *v).number(),
        ),
        Node::Tup(_, args) => pair(values, args),
        Node::Get(0, a) => Value::Number(at(values, *a).number()),
        Node::Get(_, a) => Value::Truth(at(values, *a).truth()),
        _ => Value::Number(0),
    }
}

/// The value of the term, where each variable has the value at its node's number.
pub fn evaluated(
    alloc: Global,
    bank: &Bank,
    term: TermId,
    given: &[Value],
) -> Result<Value, NoMemory> {
    let mut values = Vec::new(alloc);
    for i in 0..bank.len() {
        let now = given.get(i).copied().unwrap_or(Value::Number(0));
        let value = value_of(bank.node_of(TermId(i)), values.as_slice(), now);
        values.push(value)?;
    }
    Ok(at(values.as_slice(), term))
}
