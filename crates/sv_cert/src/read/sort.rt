ghost use Rattle.std.specs.Prelude.{◌^◌, ◌∷◌, map};
ghost use Rattle.sv_cert.specs.LogReading.{numeral, sort_in, bits_sort, sort_of_reading, begin_sort, end_sort, step_at, Begun, Digits, InTuple};
ghost use Rattle.sv_cert.specs.LogSteps.{Gives};
ghost use Rattle.sv_cert.specs.PlainNodes.{plain_sort};
ghost use Rattle.sv_cert.specs.SortSteps.{Comes, plain_brackets, plain_reading};

use crate::read::brackets::{Bracket, Reading};
use crate::read::stop::Stop;
use crate::read::words::FromWord;
use crate::sort::LogSort;
use sqlite_items::{Boxed, Items};
use std::alloc::Global;
use sv_term::Range;

/// The sort of a word of at most 10,000 bytes, byte by byte with the brackets that are open, so that no depth takes stack.
pub fn sort(alloc: Global, word: &[u8]) -> Result<LogSort, Stop>
    ensures { Gives plain_sort result (sort_in word.now) }
{
    if word.len() > 10_000 {
        return Err(Stop::NoEntry);
    }
    let mut brackets = Items::new(alloc);
    let mut reading = Reading::Wanted;
    for byte in word {
        reading = step(alloc, &mut brackets, reading, *byte)?;
    }
    if brackets.is_empty() {
        whole(reading)
    } else {
        Err(Stop::NoEntry)
    }
}

fn whole(reading: Reading) -> Result<LogSort, Stop>
    ensures { Gives plain_sort result (sort_of_reading (plain_reading reading)) }
{
    match reading {
        Reading::Done(sort) => Ok(sort),
        Reading::Digits(signed, digits) => bits(signed, digits.as_slice()),
        Reading::Wanted | Reading::Begun => Err(Stop::NoEntry),
    }
}

fn bits(signed: bool, digits: &[u8]) -> Result<LogSort, Stop>
    ensures { Gives plain_sort result (bits_sort signed (numeral (2 ^ 16) digits.now)) }
{
    match u16::from_word(digits) {
        Some(n) => Ok(LogSort::Num(Range::Bits(signed, n))),
        None => Err(Stop::NoEntry),
    }
}

fn step(
    alloc: Global,
    brackets: &mut Items<Bracket>,
    reading: Reading,
    byte: u8,
) -> Result<Reading, Stop>
    ensures { Comes (step_at (plain_brackets brackets.old) (plain_reading reading) byte)
        result brackets.new }
{
    match reading {
        Reading::Wanted => begin(alloc, brackets, byte),
        Reading::Begun => begun(alloc, brackets, byte),
        Reading::Digits(signed, digits) => in_digits(alloc, brackets, signed, digits, byte),
        Reading::Done(sort) => end(alloc, brackets, sort, byte),
    }
}

/// The first byte of a sort.
fn begin(alloc: Global, brackets: &mut Items<Bracket>, byte: u8) -> Result<Reading, Stop>
    ensures { Comes (begin_sort (plain_brackets brackets.old) byte) result brackets.new }
{
    if byte == b'n' {
        Ok(Reading::Done(LogSort::Num(Range::Any)))
    } else if byte == b'l' {
        Ok(Reading::Done(LogSort::Num(Range::Low)))
    } else if byte == b'b' {
        Ok(Reading::Done(LogSort::Bool))
    } else if byte == b'[' {
        brackets.push(Bracket::Array)?;
        Ok(Reading::Wanted)
    } else if byte == b'(' {
        Ok(Reading::Begun)
    } else if byte == b'u' {
        Ok(Reading::Digits(false, Items::new(alloc)))
    } else if byte == b'i' {
        Ok(Reading::Digits(true, Items::new(alloc)))
    } else {
        Err(Stop::NoEntry)
    }
}

/// The byte behind a tuple's bracket.
fn begun(alloc: Global, brackets: &mut Items<Bracket>, byte: u8) -> Result<Reading, Stop>
    ensures { Comes (step_at (plain_brackets brackets.old) Begun byte) result brackets.new }
{
    if byte == b')' {
        return Ok(Reading::Done(LogSort::Tup(Items::new(alloc))));
    }
    brackets.push(Bracket::Tuple(Items::new(alloc)))?;
    begin(alloc, brackets, byte)
}

/// The byte behind the letter of a range and these digits.
fn in_digits(
    alloc: Global,
    brackets: &mut Items<Bracket>,
    signed: bool,
    mut digits: Items<u8>,
    byte: u8,
) -> Result<Reading, Stop>
    ensures { Comes (step_at (plain_brackets brackets.old) (Digits signed digits) byte)
        result brackets.new }
{
    if byte.is_ascii_digit() {
        digits.push(byte)?;
        return Ok(Reading::Digits(signed, digits));
    }
    let sort = bits(signed, digits.as_slice())?;
    end(alloc, brackets, sort, byte)
}

/// The byte behind a sort.
fn end(
    alloc: Global,
    brackets: &mut Items<Bracket>,
    sort: LogSort,
    byte: u8,
) -> Result<Reading, Stop>
    ensures { Comes (end_sort (plain_brackets brackets.old) (plain_sort sort) byte)
        result brackets.new }
{
    match brackets.pop() {
        None => Err(Stop::NoEntry),
        Some(Bracket::Array) => {
            if byte == b']' {
                Ok(Reading::Done(LogSort::Arr(Boxed::new(alloc, sort)?)))
            } else {
                Err(Stop::NoEntry)
            }
        }
        Some(Bracket::Tuple(parts)) => end_part(brackets, parts, sort, byte),
    }
}

/// The byte behind a sort in a tuple with these parts before it.
fn end_part(
    brackets: &mut Items<Bracket>,
    mut parts: Items<LogSort>,
    sort: LogSort,
    byte: u8,
) -> Result<Reading, Stop>
    ensures { Comes (end_sort (InTuple (map plain_sort parts) ∷ plain_brackets brackets.old)
        (plain_sort sort) byte) result brackets.new }
{
    if byte == b')' {
        parts.push(sort)?;
        Ok(Reading::Done(LogSort::Tup(parts)))
    } else if byte == b',' {
        parts.push(sort)?;
        brackets.push(Bracket::Tuple(parts))?;
        Ok(Reading::Wanted)
    } else {
        Err(Stop::NoEntry)
    }
}
