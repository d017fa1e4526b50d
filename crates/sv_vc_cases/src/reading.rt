use crate::naming;
use sqlite_items::Items;
use std::alloc::Global;
use sv_core::{Label, Site};
use sv_gcl::{Cmd, GVar, Lowered};
use sv_term::{Args, Bank, Node, Range, SortId, SortNode, TermId};
use sv_text::{Name, Names, NoMemory};

/// What was read of a line. The variables are a number, a byte, a truth value, an array of numbers, and a pair of a number and a truth value.
#[derive(Drop)]
struct Reading {
    bank: Bank,
    vars: Items<GVar>,
    pair: SortId,
    contract: Name,
    terms: Vec<TermId>,
    cmds: Vec<Cmd>,
    labels: Items<Label>,
    made: usize,
}

/// A command with its labels, and how many commands are in it.
#[derive(Drop)]
pub struct Line {
    pub lowered: Lowered,
    pub commands: usize,
}

impl Reading {
    fn new(alloc: Global) -> Result<Reading, NoMemory> {
        let mut bank = Bank::new(alloc);
        let number = bank.sort(SortNode::Num(Range::Any))?;
        let byte = bank.sort(SortNode::Num(Range::Bits(false, 8)))?;
        let truth = bank.sort(SortNode::Bool)?;
        let array = bank.sort(SortNode::Arr(number))?;
        let pair = bank.sort(SortNode::Tup(Vec::from_slice(alloc, &[number, truth])?))?;
        let mut vars = Items::new(alloc);
        for sort in [number, byte, truth, array, pair] {
            vars.push(GVar { name: None, sort })?;
        }
        let mut names = Names::new(alloc);
        Ok(Reading {
            bank,
            vars,
            pair,
            contract: names.intern(b"C")?,
            terms: Vec::new(alloc),
            cmds: Vec::new(alloc),
            labels: Items::new(alloc),
            made: 0,
        })
    }

    fn label(&self, number: u32) -> Label {
        Label {
            site: Site::End,
            kind: 7,
            number,
            of: self.contract,
        }
    }

    /// Adds the term of the node where it fits, and otherwise says that it doesn't.
    fn push(&mut self, node: Node) -> Result<bool, NoMemory> {
        if !self.bank.fits(&node) {
            return Ok(false);
        }
        let term = self.bank.add(node)?;
        self.terms.push(term)?;
        Ok(true)
    }

    /// Takes a word: a label of the list, a term or a command over those that were made last. False where there is no such word.
    fn take(&mut self, alloc: Global, word: &str) -> Result<bool, NoMemory> {
        let (name, number) = split(word);
        match name {
            "label" => {
                let label = self.label(number);
                self.labels.push(label)?;
                Ok(true)
            }
            "v" => self.variable(number as usize),
            "" => self.push(Node::Lit(false, number as u128)),
            "minus" => self.push(Node::Lit(true, number as u128)),
            "true" => self.push(Node::Truth(true)),
            "false" => self.push(Node::Truth(false)),
            "assume" | "check" | "set" | "forget" => self.step(name, number),
            "seq" | "choice" => self.list(name, number as usize),
            _ => self.node(alloc, name),
        }
    }

    fn variable(&mut self, x: usize) -> Result<bool, NoMemory> {
        match self.vars.as_slice().get(x) {
            Some(var) => {
                let node = Node::Var(x, var.sort);
                self.push(node)
            }
            None => Ok(false),
        }
    }

    fn node(&mut self, alloc: Global, name: &str) -> Result<bool, NoMemory> {
        let Some(last) = self.terms.pop() else {
            return Ok(false);
        };
        if let Some(node) = naming::of_one(name, last) {
            return self.push(node);
        }
        let Some(before) = self.terms.pop() else {
            return Ok(false);
        };
        if name == "pair" {
            let args = Args::of(alloc, &[before, last])?;
            return self.push(Node::Tup(self.pair, args));
        }
        if let Some(node) = naming::of_two(name, before, last) {
            return self.push(node);
        }
        let Some(first) = self.terms.pop() else {
            return Ok(false);
        };
        match name {
            "put" => self.push(Node::Sto(first, before, last)),
            "if" => self.push(Node::Ite(first, before, last)),
            _ => Ok(false),
        }
    }

    fn keep(&mut self, cmd: Cmd) -> Result<(), NoMemory> {
        self.cmds.push(cmd)?;
        self.made = self.made.saturating_add(1);
        Ok(())
    }

    fn step(&mut self, name: &str, number: u32) -> Result<bool, NoMemory> {
        if name == "forget" {
            self.keep(Cmd::Forget(number as usize))?;
            return Ok(true);
        }
        let Some(term) = self.terms.pop() else {
            return Ok(false);
        };
        let cmd = match name {
            "assume" => Cmd::Assume(term),
            "set" => Cmd::Set(number as usize, term),
            _ => Cmd::Check(self.label(number), term),
        };
        self.keep(cmd)?;
        Ok(true)
    }

    /// The commands that were made last, as a list.
    fn list(&mut self, name: &str, count: usize) -> Result<bool, NoMemory> {
        let Some(start) = self.cmds.len().checked_sub(count) else {
            return Ok(false);
        };
        let last = Items::from_vec(self.cmds.split_off(start)?);
        let cmd = if name == "seq" {
            Cmd::Seq(last)
        } else {
            Cmd::Choice(last)
        };
        self.keep(cmd)?;
        Ok(true)
    }
}

/// A word and the number at its end, 0 where there is none.
fn split(word: &str) -> (&str, u32) {
    let name = word.trim_end_matches(|c: char| c.is_ascii_digit());
    let digits = word.strip_prefix(name).unwrap_or("");
    (name, digits.parse::<u32>().unwrap_or(0))
}

/// The command of a line, with the labels of its list.
pub fn read(alloc: Global, line: &str) -> Result<Option<Line>, NoMemory> {
    let mut reading = Reading::new(alloc)?;
    for word in line.split_whitespace() {
        if !reading.take(alloc, word)? {
            return Ok(None);
        }
    }
    let Some(cmd) = reading.cmds.pop() else {
        return Ok(None);
    };
    let lowered = Lowered {
        bank: reading.bank,
        vars: reading.vars,
        cmd,
        labels: reading.labels,
    };
    Ok(Some(Line {
        lowered,
        commands: reading.made,
    }))
}
