ghost use Rattle.std.specs.Prelude.{◌≡◌, map, option_map, find};
ghost use Rattle.std.specs.Str.{bytes_eq};
ghost use Rattle.sv_cert.specs.LogText.{name_of};
ghost use Rattle.sv_cert.specs.LogReading.{kind_in, part_in, parts_in, term_part, each, node_in};
ghost use Rattle.sv_cert.specs.LogSteps.{Gives, Takes, Adds};
ghost use Rattle.sv_cert.specs.PlainNodes.{plain_kind, plain_part, plain_slot};
ghost use Rattle.sv_cert.specs.PlainLogs.{plain_node};

use crate::kind::{NodeKind, Slot};
use crate::log::LogNode;
use crate::part::Part;
use crate::read::numbers::{flag, numeral, sign};
use crate::read::sort::sort;
use crate::read::stop::Stop;
use crate::read::words::{FromWord, Words};
use sqlite_items::Items;
use std::alloc::Global;

const KINDS: [NodeKind; 22] = [
    NodeKind::Lit,
    NodeKind::Truth,
    NodeKind::Var,
    NodeKind::Add,
    NodeKind::Sub,
    NodeKind::Mul,
    NodeKind::Div,
    NodeKind::Mod,
    NodeKind::Wrap,
    NodeKind::Le,
    NodeKind::Eq,
    NodeKind::Not,
    NodeKind::And,
    NodeKind::Or,
    NodeKind::Ite,
    NodeKind::Sel,
    NodeKind::Sto,
    NodeKind::Const,
    NodeKind::Mix,
    NodeKind::Tup,
    NodeKind::Get,
    NodeKind::Sum,
];

/// A node: its name, and its arguments up to the end of the line.
pub fn node(alloc: Global, words: &mut Words<'_>) -> Result<LogNode, Stop>
    ensures { Gives plain_node result (node_in words.old) }
{
    let kind = kind(words)?;
    let mut parts = Items::new(alloc);
    add_parts(alloc, kind.slots(), words, &mut parts)?;
    Ok(LogNode { kind, parts })
}

fn kind(words: &mut Words<'_>) -> Result<NodeKind, Stop>
    ensures { Takes kind_in plain_kind words.old result words.new }
{
    let Some(word) = words.next() else {
        return Err(Stop::NoEntry);
    };
    match kind_of(word) {
        Some(kind) => Ok(kind),
        None => Err(Stop::NoEntry),
    }
}

fn kind_of(word: &[u8]) -> Option<NodeKind>
    ensures { option_map plain_kind result ≡ kind_in word.now }
{
    kind_among(&KINDS, word)
}

fn kind_among(kinds: &[NodeKind], word: &[u8]) -> Option<NodeKind>
    ensures { option_map plain_kind result
        ≡ find (λ k. bytes_eq (name_of k) word.now) (map plain_kind kinds.now) }
{
    let Some((kind, others)) = kinds.split_first() else {
        return None;
    };
    if kind.name() == word {
        Some(*kind)
    } else {
        kind_among(others, word)
    }
}

/// Adds what the words that are left write at these places.
fn add_parts(
    alloc: Global,
    slots: &[Slot],
    words: &mut Words<'_>,
    parts: &mut Items<Part>,
) -> Result<(), Stop>
    ensures { Adds plain_part (parts_in (map plain_slot slots.now) words.old)
        parts.old result parts.new }
{
    let Some((slot, slots)) = slots.split_first() else {
        return words.end();
    };
    if *slot == Slot::Terms {
        return add_terms(words, parts);
    }
    let Some(word) = words.next() else {
        return Err(Stop::NoEntry);
    };
    parts.push(part(alloc, *slot, word)?)?;
    add_parts(alloc, slots, words, parts)
}

fn add_terms(words: &mut Words<'_>, parts: &mut Items<Part>) -> Result<(), Stop>
    ensures { Adds plain_part (each term_part words.old) parts.old result parts.new }
{
    while let Some(word) = words.next() {
        parts.push(term(word)?)?;
    }
    Ok(())
}

fn term(word: &[u8]) -> Result<Part, Stop>
    ensures { Gives plain_part result (term_part word.now) }
{
    match usize::from_word(word) {
        Some(n) => Ok(Part::Term(n)),
        None => Err(Stop::NoEntry),
    }
}

fn part(alloc: Global, slot: Slot, word: &[u8]) -> Result<Part, Stop>
    ensures { Gives plain_part result (part_in (plain_slot slot) word.now) }
{
    match slot {
        Slot::Sign => match sign(word) {
            Some(positive) => Ok(Part::Flag(!positive)),
            None => Err(Stop::NoEntry),
        },
        Slot::Flag => match flag(word) {
            Some(flag) => Ok(Part::Flag(flag)),
            None => Err(Stop::NoEntry),
        },
        Slot::Number => match numeral(word) {
            Some(m) => Ok(Part::Number(m)),
            None => Err(Stop::NoEntry),
        },
        Slot::Sort => Ok(Part::Sort(sort(alloc, word)?)),
        Slot::Term | Slot::Terms => term(word),
    }
}
