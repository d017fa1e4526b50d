//! Contracts, and what stands outside of contracts.
#![tactic(auto)]

ghost use Rattle.std.specs.Prelude.{◌≡◌, slice_get};
ghost use Rattle.sv_duplicate.specs.Duplicates.{is_earlier_contract, is_earlier_declaration, is_taken, repeats_contract, repeats_outside, taken_by_contract, taken_by_declaration};

use crate::member::has_member_twice;
use sv_decl::{Declaration, DeclaredContract, DeclaredText};
use sv_rival::same_name;
use sv_text::Name;

fn is_earlier_contract(name: &Option<Name>, byte: u32, d: &DeclaredContract) -> bool
    ensures { result ≡ is_earlier_contract name.now byte d.now }
{
    same_name(*name, Some(d.name)) && d.spot.span.from < byte
}

fn is_earlier_declaration(name: &Option<Name>, byte: u32, g: &Declaration) -> bool
    ensures { result ≡ is_earlier_declaration name.now byte g.now }
{
    same_name(*name, g.name) && g.spot.span.from < byte
}

fn taken_by_contract(contracts: &[DeclaredContract], name: &Option<Name>, byte: u32) -> bool
    ensures { result ≡ taken_by_contract contracts.now name.now byte }
{
    contracts.iter().any(|d| is_earlier_contract(name, byte, d))
}

fn taken_by_declaration(outside: &[Declaration], name: &Option<Name>, byte: u32) -> bool
    ensures { result ≡ taken_by_declaration outside.now name.now byte }
{
    outside
        .iter()
        .any(|g| is_earlier_declaration(name, byte, g))
}

/// Whether a contract or a declaration outside of contracts has the name and begins before this byte.
fn is_taken(text: &DeclaredText, name: &Option<Name>, byte: u32) -> bool
    ensures { result ≡ is_taken text.now name.now byte }
{
    taken_by_contract(text.contracts.as_slice(), name, byte)
        || taken_by_declaration(text.outside.as_slice(), name, byte)
}

/// Whether the contract of this number has a name that the text has already.
pub fn repeats_contract(text: &DeclaredText, c: usize) -> bool
    ensures { result ≡ repeats_contract text.now (slice_get text.now.contracts c) }
{
    match text.contracts.get(c) {
        None => false,
        Some(d) => is_taken(text, &Some(d.name), d.spot.span.from),
    }
}

/// Whether what stands outside of contracts at this position has a name that the text has already, or is an enum with a member twice.
pub fn repeats_outside(text: &DeclaredText, at: usize) -> bool
    ensures { result ≡ repeats_outside text.now (slice_get text.now.outside at) }
{
    match text.outside.get(at) {
        None => false,
        Some(f) => has_member_twice(&f.kind) || is_taken(text, &f.name, f.spot.span.from),
    }
}
