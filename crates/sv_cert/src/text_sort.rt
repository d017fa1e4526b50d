//! Writing a sort.

ghost use Rattle.std.specs.Prelude.{◌≡◌, ◌++◌, [], cond, codes, map, nat_eq, OnOk};
ghost use Rattle.sv_term.specs.Banks.{range_of};
ghost use Rattle.sv_cert.specs.LogText.{range_word, sort_word, sorts_word};
ghost use Rattle.sv_cert.specs.PlainNodes.{plain_sort, sorts_from};

use crate::sort::LogSort;
use std::alloc::Global;
use sv_term::Range;
use sv_text::NoMemory;

/// Adds a sort to a text. It calls itself for a sort within it, so it takes stack for each bracket.
#[cycle(add_sort)]
pub fn add_sort(alloc: Global, text: &mut Vec<u8>, sort: &LogSort) -> Result<(), NoMemory>
    ensures { OnOk result (text.new.items ≡ text.old.items ++ sort_word (plain_sort sort.now)) }
{
    match sort {
        LogSort::Num(range) => add_range(alloc, text, *range),
        LogSort::Bool => Ok(text.push(b'b')?),
        LogSort::Arr(element) => {
            text.push(b'[')?;
            add_sort(alloc, text, element.get())?;
            Ok(text.push(b']')?)
        }
        LogSort::Tup(parts) => {
            text.push(b'(')?;
            add_sorts(alloc, text, parts.as_slice())?;
            Ok(text.push(b')')?)
        }
    }
}

#[cycle(add_sort)]
fn add_sorts(alloc: Global, text: &mut Vec<u8>, sorts: &[LogSort]) -> Result<(), NoMemory>
    ensures { OnOk result (text.new.items ≡ text.old.items
        ++ sorts_word (sorts_from (map plain_sort sorts.now))) }
{
    for (i, sort) in sorts.iter().enumerate() {
        add_comma(text, i)?;
        add_sort(alloc, text, sort)?;
    }
    Ok(())
}

/// The comma before a part of a tuple that isn't the first.
fn add_comma(text: &mut Vec<u8>, i: usize) -> Result<(), NoMemory>
    ensures { OnOk result (text.new.items ≡ text.old.items ++ cond (nat_eq i 0) [] (codes ",")) }
{
    if i > 0 {
        text.push(b',')?;
    }
    Ok(())
}

fn add_range(alloc: Global, text: &mut Vec<u8>, range: Range) -> Result<(), NoMemory>
    ensures { OnOk result (text.new.items ≡ text.old.items ++ range_word (range_of range)) }
{
    match range {
        Range::Any => Ok(text.push(b'n')?),
        Range::Low => Ok(text.push(b'l')?),
        Range::Bits(signed, bits) => {
            text.push(if signed { b'i' } else { b'u' })?;
            let digits = format!(in alloc; "{bits}")?;
            Ok(text.extend_from_slice(digits.as_bytes())?)
        }
    }
}
