//! Writing the text of a log.

ghost use Rattle.std.specs.Prelude.{◌≡◌, ◌++◌, ◌∷◌, [], map, OnOk, IfOk};
ghost use Rattle.std.specs.Fmt.{decimal, signed_decimal};
ghost use Rattle.sv_log.specs.LogEntries.{AddTerm, AddFact, Linear, Combine, Divide, TermsSlot, FlagPart};
ghost use Rattle.sv_cert.specs.LogText.{sign_word, part_word, part_words, row_words, monomial_words, words_of, line_of, text_of};
ghost use Rattle.sv_cert.specs.LogSteps.{spaced, joined};
ghost use Rattle.sv_cert.specs.PlainNodes.{plain_kind, plain_part, plain_slot};
ghost use Rattle.sv_cert.specs.PlainLogs.{plain_monomial, plain_row, plain_node, plain_entry, plain_log};

use crate::kind::Slot;
use crate::log::{Entry, Log, LogNode, Row};
use crate::part::Part;
use crate::text_sort::add_sort;
use std::alloc::Global;
use sv_text::NoMemory;

/// The text of a log: a line for each entry.
pub fn log_text(alloc: Global, log: &Log) -> Result<Vec<u8>, NoMemory>
    ensures { IfOk result (λ text. text.items ≡ text_of (plain_log log.now)) }
{
    let mut text = Vec::new(alloc);
    for entry in log.entries.as_slice() {
        add_line(alloc, &mut text, entry)?;
    }
    Ok(text)
}

fn add_line(alloc: Global, text: &mut Vec<u8>, entry: &Entry) -> Result<(), NoMemory>
    ensures { OnOk result (text.new.items ≡ text.old.items ++ line_of (plain_entry entry.now)) }
{
    add_entry(alloc, text, entry)?;
    text.push(b'\n')?;
    Ok(())
}

fn add_entry(alloc: Global, text: &mut Vec<u8>, entry: &Entry) -> Result<(), NoMemory>
    ensures { OnOk result (text.new.items ≡ text.old.items
        ++ joined (words_of (plain_entry entry.now))) }
{
    match entry {
        Entry::Term(node) => add_node(alloc, text, node),
        Entry::Fact(rule, sign, n, from) => add_fact(
            alloc,
            text,
            *rule,
            *sign,
            *n,
            from.as_slice(),
        ),
        Entry::Linear(p, forward, row) => add_linear(alloc, text, *p, *forward, row),
        Entry::Combine(m, p, n, q, row) => add_combination(alloc, text, *m, *p, *n, *q, row),
        Entry::Divide(d, p, row) => add_division(alloc, text, *d, *p, row),
        Entry::Split(n) => add_one(alloc, text, b's', *n),
        Entry::Cut => Ok(text.push(b'x')?),
        Entry::Close(p) => add_one(alloc, text, b'c', *p),
        Entry::Clash(p, q) => {
            add_one(alloc, text, b'c', *p)?;
            add_index(alloc, text, *q)
        }
    }
}

fn add_fact(
    alloc: Global,
    text: &mut Vec<u8>,
    rule: u8,
    sign: bool,
    n: usize,
    from: &[usize],
) -> Result<(), NoMemory>
    ensures { OnOk result (text.new.items ≡ text.old.items
        ++ joined (words_of (AddFact rule sign n from.now))) }
{
    add_one(alloc, text, b'f', usize::from(rule))?;
    add_sign(text, sign)?;
    add_index(alloc, text, n)?;
    add_indexes(alloc, text, from)
}

fn add_linear(
    alloc: Global,
    text: &mut Vec<u8>,
    p: usize,
    forward: bool,
    row: &Row,
) -> Result<(), NoMemory>
    ensures { OnOk result (text.new.items ≡ text.old.items
        ++ joined (words_of (Linear p forward (plain_row row.now)))) }
{
    add_one(alloc, text, b'l', p)?;
    add_sign(text, forward)?;
    add_row(alloc, text, row)
}

fn add_combination(
    alloc: Global,
    text: &mut Vec<u8>,
    m: i128,
    p: usize,
    n: i128,
    q: usize,
    row: &Row,
) -> Result<(), NoMemory>
    ensures { OnOk result (text.new.items ≡ text.old.items
        ++ joined (words_of (Combine m p n q (plain_row row.now)))) }
{
    text.push(b'k')?;
    add_multiple(alloc, text, m, p)?;
    add_multiple(alloc, text, n, q)?;
    add_row(alloc, text, row)
}

/// A multiplier, and the row that it multiplies.
fn add_multiple(alloc: Global, text: &mut Vec<u8>, m: i128, p: usize) -> Result<(), NoMemory>
    ensures { OnOk result (text.new.items ≡ text.old.items
        ++ spaced (signed_decimal m ∷ decimal p ∷ [])) }
{
    add_integer(alloc, text, m)?;
    add_index(alloc, text, p)
}

fn add_division(
    alloc: Global,
    text: &mut Vec<u8>,
    d: i128,
    p: usize,
    row: &Row,
) -> Result<(), NoMemory>
    ensures { OnOk result (text.new.items ≡ text.old.items
        ++ joined (words_of (Divide d p (plain_row row.now)))) }
{
    text.push(b'g')?;
    add_multiple(alloc, text, d, p)?;
    add_row(alloc, text, row)
}

fn add_row(alloc: Global, text: &mut Vec<u8>, row: &Row) -> Result<(), NoMemory>
    ensures { OnOk result (text.new.items ≡ text.old.items
        ++ spaced (row_words (plain_row row.now))) }
{
    add_integer(alloc, text, row.constant)?;
    add_monomials(alloc, text, row.parts.as_slice())
}

fn add_monomials(alloc: Global, text: &mut Vec<u8>, parts: &[(i128, usize)]) -> Result<(), NoMemory>
    ensures { OnOk result (text.new.items ≡ text.old.items
        ++ spaced (monomial_words (map plain_monomial parts.now))) }
{
    for (factor, column) in parts {
        add_multiple(alloc, text, *factor, *column)?;
    }
    Ok(())
}

fn add_node(alloc: Global, text: &mut Vec<u8>, node: &LogNode) -> Result<(), NoMemory>
    ensures { OnOk result (text.new.items ≡ text.old.items
        ++ joined (words_of (AddTerm (plain_node node.now)))) }
{
    text.extend_from_slice(b"t ")?;
    text.extend_from_slice(node.kind.name())?;
    add_parts(alloc, text, node.kind.slots(), node.parts.as_slice())
}

/// The arguments of a node in their places; those in the last place may be any number.
fn add_parts(
    alloc: Global,
    text: &mut Vec<u8>,
    slots: &[Slot],
    parts: &[Part],
) -> Result<(), NoMemory>
    ensures { OnOk result (text.new.items ≡ text.old.items
        ++ spaced (part_words (map plain_slot slots.now) (map plain_part parts.now))) }
{
    let Some((slot, slots)) = slots.split_first() else {
        return Ok(());
    };
    if *slot == Slot::Terms {
        return add_terms(alloc, text, parts);
    }
    let Some((part, parts)) = parts.split_first() else {
        return Ok(());
    };
    add_part(alloc, text, *slot, part)?;
    add_parts(alloc, text, slots, parts)
}

fn add_terms(alloc: Global, text: &mut Vec<u8>, parts: &[Part]) -> Result<(), NoMemory>
    ensures { OnOk result (text.new.items ≡ text.old.items
        ++ spaced (map (part_word TermsSlot) (map plain_part parts.now))) }
{
    for part in parts {
        add_part(alloc, text, Slot::Terms, part)?;
    }
    Ok(())
}

fn add_part(alloc: Global, text: &mut Vec<u8>, slot: Slot, part: &Part) -> Result<(), NoMemory>
    ensures { OnOk result (text.new.items ≡ text.old.items
        ++ 32 ∷ part_word (plain_slot slot) (plain_part part.now)) }
{
    match part {
        Part::Term(n) => add_index(alloc, text, *n),
        Part::Sort(sort) => {
            text.push(b' ')?;
            add_sort(alloc, text, sort)
        }
        Part::Number(m) => add_number(alloc, text, *m),
        Part::Flag(flag) => add_flag(text, slot, *flag),
    }
}

/// A flag, which is `-` for true where it is the sign of a literal, and `1` elsewhere.
fn add_flag(text: &mut Vec<u8>, slot: Slot, flag: bool) -> Result<(), NoMemory>
    ensures { OnOk result (text.new.items ≡ text.old.items
        ++ 32 ∷ part_word (plain_slot slot) (FlagPart flag)) }
{
    let word = match (slot == Slot::Sign, flag) {
        (true, true) => b" -",
        (true, false) => b" +",
        (false, true) => b" 1",
        (false, false) => b" 0",
    };
    Ok(text.extend_from_slice(word)?)
}

/// The letter of a line, and a number.
fn add_one(alloc: Global, text: &mut Vec<u8>, letter: u8, n: usize) -> Result<(), NoMemory>
    ensures { OnOk result (text.new.items ≡ text.old.items ++ letter ∷ 32 ∷ decimal n) }
{
    text.push(letter)?;
    add_index(alloc, text, n)
}

fn add_sign(text: &mut Vec<u8>, sign: bool) -> Result<(), NoMemory>
    ensures { OnOk result (text.new.items ≡ text.old.items ++ 32 ∷ sign_word sign) }
{
    Ok(text.extend_from_slice(if sign { b" +" } else { b" -" })?)
}

fn add_indexes(alloc: Global, text: &mut Vec<u8>, ns: &[usize]) -> Result<(), NoMemory>
    ensures { OnOk result (text.new.items ≡ text.old.items ++ spaced (map decimal ns.now)) }
{
    for n in ns {
        add_index(alloc, text, *n)?;
    }
    Ok(())
}

fn add_index(alloc: Global, text: &mut Vec<u8>, n: usize) -> Result<(), NoMemory>
    ensures { OnOk result (text.new.items ≡ text.old.items ++ 32 ∷ decimal n) }
{
    let digits = format!(in alloc; " {n}")?;
    Ok(text.extend_from_slice(digits.as_bytes())?)
}

fn add_number(alloc: Global, text: &mut Vec<u8>, n: u128) -> Result<(), NoMemory>
    ensures { OnOk result (text.new.items ≡ text.old.items ++ 32 ∷ decimal n) }
{
    let digits = format!(in alloc; " {n}")?;
    Ok(text.extend_from_slice(digits.as_bytes())?)
}

fn add_integer(alloc: Global, text: &mut Vec<u8>, n: i128) -> Result<(), NoMemory>
    ensures { OnOk result (text.new.items ≡ text.old.items ++ 32 ∷ signed_decimal n) }
{
    let digits = format!(in alloc; " {n}")?;
    Ok(text.extend_from_slice(digits.as_bytes())?)
}
