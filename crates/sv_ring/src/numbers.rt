//! The numbers of declarations.
#![tactic(auto)]

ghost use Rattle.std.specs.Prelude.{◌≡◌, ◌+◌, slice_index_or, IfOk};
ghost use Rattle.sv_ring.specs.RingSteps.{number, starts_from, starts_of};

use sqlite_items::Items;
use std::alloc::Global;
use sv_decl::DeclaredContract;
use sv_text::NoMemory;

/// So many more, where that is a number of 32 bits.
pub fn more(n: u32, count: usize) -> Result<u32, NoMemory>
    ensures { IfOk result (λ r. r ≡ n + count) }
{
    match u32::try_from(count) {
        Ok(count) => n.checked_add(count).ok_or(NoMemory),
        Err(_) => Err(NoMemory),
    }
}

/// The number of the first declaration of each contract, and behind them that of the first outside of all contracts: declarations are numbered in order of
/// contracts, and those outside come last. A text with 2^32 declarations is answered with want of memory.
pub fn starts_of(alloc: Global, contracts: &[DeclaredContract]) -> Result<Items<u32>, NoMemory>
    ensures { IfOk result (λ r. r ≡ starts_of contracts.now) }
{
    let mut starts = Items::new(alloc);
    let mut next = 0u32;
    for c in contracts {
        starts.push(next)?;
        next = more(next, c.declarations.len())?;
    }
    starts.push(next)?;
    Ok(starts)
}

/// The number of the first declaration there.
pub fn start_at(starts: &[u32], c: usize) -> u32
    ensures { result ≡ slice_index_or starts.now c 0 }
{
    match starts.get(c) {
        None => 0,
        Some(start) => *start,
    }
}

/// The number of a declaration of contract `c` by its position in it; behind the last contract stands what is declared outside.
pub fn number_of(starts: &[u32], c: usize, at: usize) -> Result<u32, NoMemory>
    ensures { IfOk result (λ r. r ≡ number starts.now c at) }
{
    more(start_at(starts, c), at)
}
