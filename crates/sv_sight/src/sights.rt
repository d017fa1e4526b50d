//! Contracts whose names are seen.
#![tactic(auto)]

ghost use Rattle.std.specs.Prelude.{◌≡◌, IfOk};
ghost use Rattle.sv_sight.specs.Sights.{EachSees, Sees, places_from};

use sqlite_items::Items;
use std::alloc::Global;
use sv_reach::reached;
use sv_text::NoMemory;

/// The places that are marked.
fn marked(alloc: Global, marks: &[bool]) -> Result<Items<u32>, NoMemory>
    ensures { IfOk result (λ r. r ≡ places_from 0 marks.now) }
{
    let mut places = Items::new(alloc);
    let mut place = 0u32;
    for mark in marks {
        if *mark {
            places.push(place)?;
        }
        place = place.checked_add(1).ok_or(NoMemory)?;
    }
    Ok(places)
}

/// The contracts whose names contract `c` sees.
fn sight(
    alloc: Global,
    bases: &[Items<u32>],
    line: &Option<Items<u32>>,
    c: u32,
) -> Result<Items<u32>, NoMemory>
    ensures { IfOk result (λ r. Sees bases.now line.now c r) }
{
    match line {
        Some(line) => Ok(Items::from_slice(alloc, line.as_slice())?),
        None => {
            let marks = reached(alloc, bases, &[c])?;
            marked(alloc, marks.as_slice())
        }
    }
}

/// For each contract the contracts whose names it sees: its line, or where it has none all that it reaches through bases, in order of the text.
pub fn each_sight(
    alloc: Global,
    bases: &[Items<u32>],
    lines: &[Option<Items<u32>>],
) -> Result<Items<Items<u32>>, NoMemory>
    ensures { IfOk result (λ r. EachSees bases.now lines.now r) }
{
    let mut sights = Items::new(alloc);
    let mut c = 0u32;
    for line in lines {
        sights.push(sight(alloc, bases, line, c)?)?;
        c = c.checked_add(1).ok_or(NoMemory)?;
    }
    Ok(sights)
}
