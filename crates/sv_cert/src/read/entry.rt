ghost use Rattle.sv_cert.specs.LogReading.{monomials, row_in, term_in, fact_in, linear_in, combine_in, divide_in, split_in, close_in, entry_by, entry_of_line};
ghost use Rattle.sv_cert.specs.LogSteps.{Gives, monomials_of};
ghost use Rattle.sv_cert.specs.PlainLogs.{plain_entry, plain_row};

use crate::log::{Entry, Row};
use crate::read::node::node;
use crate::read::stop::Stop;
use crate::read::words::{Words, take_all};
use sqlite_items::Items;
use std::alloc::Global;

/// The entry of a line, which is given without its newline.
pub fn entry(alloc: Global, line: &[u8]) -> Result<Entry, Stop>
    ensures { Gives plain_entry result (entry_of_line line.now) }
{
    let mut words = Words::of(line);
    let Some(letter) = words.next() else {
        return Err(Stop::NoEntry);
    };
    entry_by(alloc, letter, &mut words)
}

fn entry_by(alloc: Global, letter: &[u8], words: &mut Words<'_>) -> Result<Entry, Stop>
    ensures { Gives plain_entry result (entry_by letter.now words.old) }
{
    if letter == b"t".as_slice() {
        Ok(Entry::Term(node(alloc, words)?))
    } else if letter == b"f".as_slice() {
        fact(alloc, words)
    } else if letter == b"l".as_slice() {
        linear(alloc, words)
    } else if letter == b"k".as_slice() {
        combination(alloc, words)
    } else if letter == b"g".as_slice() {
        division(alloc, words)
    } else if letter == b"s".as_slice() {
        split(words)
    } else if letter == b"x".as_slice() {
        words.end()?;
        Ok(Entry::Cut)
    } else if letter == b"c".as_slice() {
        closing(words)
    } else {
        Err(Stop::NoEntry)
    }
}

fn fact(alloc: Global, words: &mut Words<'_>) -> Result<Entry, Stop>
    ensures { Gives plain_entry result (fact_in words.old) }
{
    let rule = words.take()?;
    let sign = words.take()?;
    let n = words.take()?;
    let from = take_all(alloc, words)?;
    Ok(Entry::Fact(rule, sign, n, from))
}

fn linear(alloc: Global, words: &mut Words<'_>) -> Result<Entry, Stop>
    ensures { Gives plain_entry result (linear_in words.old) }
{
    let p = words.take()?;
    let forward = words.take()?;
    let row = row(alloc, words)?;
    Ok(Entry::Linear(p, forward, row))
}

fn combination(alloc: Global, words: &mut Words<'_>) -> Result<Entry, Stop>
    ensures { Gives plain_entry result (combine_in words.old) }
{
    let m = words.take()?;
    let p = words.take()?;
    let n = words.take()?;
    let q = words.take()?;
    let row = row(alloc, words)?;
    Ok(Entry::Combine(m, p, n, q, row))
}

fn division(alloc: Global, words: &mut Words<'_>) -> Result<Entry, Stop>
    ensures { Gives plain_entry result (divide_in words.old) }
{
    let d = words.take()?;
    let p = words.take()?;
    let row = row(alloc, words)?;
    Ok(Entry::Divide(d, p, row))
}

fn split(words: &mut Words<'_>) -> Result<Entry, Stop>
    ensures { Gives plain_entry result (split_in words.old) }
{
    let n = words.take()?;
    words.end()?;
    Ok(Entry::Split(n))
}

/// A closing by one item or by two.
fn closing(words: &mut Words<'_>) -> Result<Entry, Stop>
    ensures { Gives plain_entry result (close_in words.old) }
{
    let p = words.take()?;
    if words.is_empty() {
        return Ok(Entry::Close(p));
    }
    let q = words.take()?;
    words.end()?;
    Ok(Entry::Clash(p, q))
}

fn row(alloc: Global, words: &mut Words<'_>) -> Result<Row, Stop>
    ensures { Gives plain_row result (row_in words.old) }
{
    let constant = words.take()?;
    let parts = parts(alloc, words)?;
    Ok(Row { constant, parts })
}

fn parts(alloc: Global, words: &mut Words<'_>) -> Result<Items<(i128, usize)>, Stop>
    ensures { Gives monomials_of result (monomials words.old) }
{
    let mut parts = Items::new(alloc);
    while !words.is_empty() {
        let factor = words.take()?;
        let column = words.take()?;
        parts.push((factor, column))?;
    }
    Ok(parts)
}
