//! The contracts that bases name.
#![tactic(auto)]

ghost use Rattle.std.specs.Prelude.{◌≡◌, ◌<◌, ◌^◌, length, IfOk};
ghost use Rattle.sv_base.specs.BaseNumbers.{base_numbers, bases_of, first_at, names_of, numbers_in};

use sqlite_items::Items;
use std::alloc::Global;
use sv_decl::{DeclaredContract, Named};
use sv_text::NoMemory;

/// The names of contracts.
fn names_of(alloc: Global, contracts: &[DeclaredContract]) -> Result<Items<u32>, NoMemory>
    ensures { IfOk result (λ r. r ≡ names_of contracts.now) }
{
    let mut names = Items::new(alloc);
    for c in contracts {
        names.push(c.name.position())?;
    }
    Ok(names)
}

/// Where a name stands first, or how many names there are.
fn first_at(names: &[u32], n: u32) -> u32
    requires { length names.now < 2 ^ 32 }
    ensures { result ≡ first_at n names.now }
{
    let mut count = 0u32;
    for x in names {
        if *x == n {
            return count;
        }
        count += 1;
    }
    count
}

/// The numbers of the bases of a contract.
fn base_numbers(alloc: Global, names: &[u32], bases: &[Named]) -> Result<Items<u32>, NoMemory>
    requires { length names.now < 2 ^ 32 }
    ensures { IfOk result (λ r. r ≡ base_numbers names.now bases.now) }
{
    let mut numbers = Items::new(alloc);
    for b in bases {
        numbers.push(first_at(names, b.name.position()))?;
    }
    Ok(numbers)
}

fn numbers_in(
    alloc: Global,
    names: &[u32],
    contracts: &[DeclaredContract],
) -> Result<Items<Items<u32>>, NoMemory>
    requires { length names.now < 2 ^ 32 }
    ensures { IfOk result (λ r. r ≡ numbers_in names.now contracts.now) }
{
    let mut all = Items::new(alloc);
    for c in contracts {
        all.push(base_numbers(alloc, names, c.bases.as_slice())?)?;
    }
    Ok(all)
}

/// For each contract the numbers of its bases, in order of the text. A base that no contract is named like has a number behind the last.
pub fn bases_of(
    alloc: Global,
    contracts: &[DeclaredContract],
) -> Result<Items<Items<u32>>, NoMemory>
    requires { length contracts.now < 2 ^ 32 }
    ensures { IfOk result (λ r. r ≡ bases_of contracts.now) }
{
    let names = names_of(alloc, contracts)?;
    numbers_in(alloc, names.as_slice(), contracts)
}
