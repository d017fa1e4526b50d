//! The rule of lines, asked of a base and of a contract.
#![tactic(auto)]

ghost use Rattle.std.specs.Prelude.{◌≡◌};
ghost use Rattle.sv_base.specs.BaseNumbers.{breaks_line, has_contract, is_contract, is_interface, is_lineless, joins, stands_late};

use sqlite_items::Items;
use sv_decl::{DeclaredContract, Standing};

/// Whether a base with this number doesn't stand before contract `c`.
pub fn stands_late(c: u32, base: u32) -> bool
    ensures { result ≡ stands_late c base }
{
    c <= base
}

fn is_interface(standing: Standing) -> bool
    ensures { result ≡ is_interface standing }
{
    match standing {
        Standing::Interface => true,
        Standing::Abstract => false,
        Standing::Concrete => false,
    }
}

/// Whether there is a contract of this number that is no interface.
fn is_contract(contracts: &[DeclaredContract], number: u32) -> bool
    ensures { result ≡ is_contract contracts.now number }
{
    match contracts.get(number as usize) {
        None => false,
        Some(c) => !is_interface(c.standing),
    }
}

/// Whether one of the bases is such a contract.
fn has_contract(contracts: &[DeclaredContract], bases: &[u32]) -> bool
    ensures { result ≡ has_contract contracts.now bases.now }
{
    for b in bases {
        if is_contract(contracts, *b) {
            return true;
        }
    }
    false
}

/// Whether contract `c` is an interface with a contract as a base.
fn joins(contracts: &[DeclaredContract], bases: &[u32], c: u32) -> bool
    ensures { result ≡ joins contracts.now bases.now c }
{
    match contracts.get(c as usize) {
        None => false,
        Some(own) => is_interface(own.standing) && has_contract(contracts, bases),
    }
}

/// Whether contract `c` has no line.
fn is_lineless(lines: &[Option<Items<u32>>], c: u32) -> bool
    ensures { result ≡ is_lineless lines.now c }
{
    match lines.get(c as usize) {
        None => true,
        Some(line) => line.is_none(),
    }
}

/// Whether contract `c` with these bases breaks the rule of lines: it has no line, or is an interface with a contract as a base.
pub fn breaks_line(
    contracts: &[DeclaredContract],
    lines: &[Option<Items<u32>>],
    bases: &[u32],
    c: u32,
) -> bool
    ensures { result ≡ breaks_line contracts.now lines.now bases.now c }
{
    is_lineless(lines, c) || joins(contracts, bases, c)
}
