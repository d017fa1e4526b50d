//! What comes of judging a log.

ghost use Rattle.std.specs.Prelude.{IsTrue};
ghost use Rattle.sv_term.specs.Banks.{IsBool};

use crate::condition;
use std::alloc::Global;
use std::fmt;
use std::fmt::{Display, Formatter, Write};
use sv_cert::{Log, read_log};
use sv_checker::{Checker, Step, Why, room_of};
use sv_term::{Bank, SortNode, TermId};
use sv_text::NoMemory;

/// The longest text that is read.
const LONGEST: usize = 1 << 30;

/// What comes of judging a log.
#[derive(Drop)]
pub enum Answer {
    /// So many entries are accepted, and the log is closed.
    Closed(usize),
    /// So many entries are accepted, and the log is open.
    Open(usize),
    /// The first entry that is rejected, from 1.
    Rejected(usize, Why),
    /// The first entry without room, from 1.
    NoRoom(usize),
    /// The condition isn't a term of truth values.
    NoCondition,
    /// The text is none of a log.
    NoLog,
}

impl Display for Answer {
    fn fmt<W: Write>(&self, f: &mut Formatter<W>) -> fmt::Result {
        match self {
            Answer::Closed(n) => write!(f, "{n} entries, closed"),
            Answer::Open(n) => write!(f, "{n} entries, open"),
            Answer::Rejected(n, why) => write!(f, "entry {n}: {why:?}"),
            Answer::NoRoom(n) => write!(f, "entry {n}: no room"),
            Answer::NoCondition => write!(f, "no condition"),
            Answer::NoLog => write!(f, "no log"),
        }
    }
}

/// Judges the log of a text, `;` for a newline.
pub fn answer_of(alloc: Global, condition: &str, shown: &[u8]) -> Result<Answer, NoMemory> {
    let Some((bank, goal)) = condition::read(alloc, condition)? else {
        return Ok(Answer::NoCondition);
    };
    let text = with_lines(alloc, shown)?;
    if text.len() > LONGEST {
        return Ok(Answer::NoLog);
    }
    match read_log(alloc, text.as_slice(), 1, 1) {
        Ok(log) => judged(alloc, &bank, goal, &log),
        Err(_) => Ok(Answer::NoLog),
    }
}

fn judged(alloc: Global, bank: &Bank, goal: TermId, log: &Log) -> Result<Answer, NoMemory> {
    if !is_truth(bank, goal) {
        return Ok(Answer::NoCondition);
    }
    let mut checker = Checker::begin(alloc, bank, goal, room_of(log))?;
    let entries = log.entries.as_slice();
    for place in 0..entries.len() {
        let entry = &entries[place];
        if !checker.has_room(entry) {
            return Ok(Answer::NoRoom(place + 1));
        }
        match checker.step(entry) {
            Step::Accepted => {}
            Step::Rejected(why) => return Ok(Answer::Rejected(place + 1, why)),
        }
    }
    if checker.closed() {
        return Ok(Answer::Closed(entries.len()));
    }
    Ok(Answer::Open(entries.len()))
}

fn is_truth(bank: &Bank, goal: TermId) -> bool
    ensures { IsTrue result → IsBool bank.now goal }
{
    if goal.0 >= bank.len() {
        return false;
    }
    match bank.sort_node(bank.sort_of(goal)) {
        SortNode::Bool => true,
        SortNode::Num(_) | SortNode::Arr(_) | SortNode::Tup(_) => false,
    }
}

fn with_lines(alloc: Global, shown: &[u8]) -> Result<Vec<u8>, NoMemory> {
    let mut text = Vec::new(alloc);
    for byte in shown {
        match *byte {
            b';' => text.push(b'\n')?,
            other => text.push(other)?,
        }
    }
    Ok(text)
}
