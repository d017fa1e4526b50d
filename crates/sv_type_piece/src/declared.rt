//! Types by what names mean.
#![tactic(auto)]

ghost use Rattle.std.specs.Prelude.{◌≡◌, IfOk, [], length, slice_index_or};
ghost use Rattle.sv_type_piece.specs.DeclaredTypes.{contract_from, first_type, member_type, named_from, named_type, seen, type_in, type_of_text};
ghost use Rattle.sv_member.specs.SeenNames.{has_name};

use crate::count::type_at;
use sqlite_items::Items;
use std::alloc::Global;
use sv_decl::{Declaration, DeclaredContract, DeclaredText};
use sv_member::{Hit, seen_by};
use sv_text::NoMemory;
use sv_text_type::TextType;

/// The first of these that is a type.
fn first_type(text: &DeclaredText, hits: &[Hit]) -> Result<Option<TextType>, NoMemory>
    ensures { IfOk result (λ r. r ≡ first_type text.now hits.now) }
{
    for h in hits {
        if let Some(found) = type_at(text, *h)? {
            return Ok(Some(found));
        }
    }
    Ok(None)
}

/// A number as one of 32 bits; a greater one is answered as want of memory.
fn small(n: usize) -> Result<u32, NoMemory>
    ensures { IfOk result (λ r. r ≡ n) }
{
    if n <= u32::MAX as usize {
        Ok(n as u32)
    } else {
        Err(NoMemory)
    }
}

/// The first contract of a name.
fn contract_named(contracts: &[DeclaredContract], name: u32) -> Result<Option<u32>, NoMemory>
    ensures { IfOk result (λ r. r ≡ contract_from name 0 contracts.now) }
{
    let mut at = 0usize;
    for c in contracts {
        if c.name.position() == name {
            return Ok(Some(small(at)?));
        }
        at += 1;
    }
    Ok(None)
}

fn has_name(d: &Declaration, name: u32) -> bool
    ensures { result ≡ has_name name d.now }
{
    match d.name {
        None => false,
        Some(n) => n.position() == name,
    }
}

/// The declarations of a name in block `c`.
fn named_in(alloc: Global, list: &[Declaration], name: u32, c: u32) -> Result<Items<Hit>, NoMemory>
    ensures { IfOk result (λ r. r ≡ named_from name c 0 list.now) }
{
    let mut hits = Items::new(alloc);
    let mut at = 0usize;
    for d in list {
        if has_name(d, name) {
            hits.push(Hit { contract: c, at })?;
        }
        at += 1;
    }
    Ok(hits)
}

/// The type that the text declares by a name.
fn type_of_text(alloc: Global, text: &DeclaredText, name: u32) -> Result<Option<TextType>, NoMemory>
    ensures { IfOk result (λ r. r ≡ type_of_text text.now name) }
{
    match contract_named(text.contracts.as_slice(), name)? {
        Some(c) => Ok(Some(TextType::Contract(c))),
        None => {
            let behind = small(text.contracts.len())?;
            let hits = named_in(alloc, text.outside.as_slice(), name, behind)?;
            first_type(text, hits.as_slice())
        }
    }
}

fn sight_of(sights: &[Items<u32>], c: u32) -> &[u32]
    ensures { result.now ≡ slice_index_or sights.now c [] }
{
    match sights.get(c as usize) {
        None => &[],
        Some(sight) => sight.as_slice(),
    }
}

/// What contract `c` sees by a name in the contracts where it looks.
fn seen(
    alloc: Global,
    text: &DeclaredText,
    sights: &[Items<u32>],
    c: Option<u32>,
    name: u32,
) -> Result<Items<Hit>, NoMemory>
    ensures { IfOk result (λ r. r ≡ seen text.now sights.now c name) }
{
    match c {
        None => Ok(Items::new(alloc)),
        Some(c) => seen_by(
            alloc,
            text.contracts.as_slice(),
            sight_of(sights, c),
            c,
            name,
        ),
    }
}

/// The type that a name means.
pub(crate) fn named_type(
    alloc: Global,
    text: &DeclaredText,
    sights: &[Items<u32>],
    c: Option<u32>,
    name: u32,
) -> Result<Option<TextType>, NoMemory>
    ensures { IfOk result (λ r. r ≡ named_type text.now sights.now c name) }
{
    let hits = seen(alloc, text, sights, c, name)?;
    if hits.len() == 0 {
        type_of_text(alloc, text, name)
    } else {
        first_type(text, hits.as_slice())
    }
}

/// The type that a contract has by a name.
fn type_in(
    alloc: Global,
    text: &DeclaredText,
    sights: &[Items<u32>],
    c: Option<u32>,
    member: u32,
) -> Result<Option<TextType>, NoMemory>
    ensures { IfOk result (λ r. r ≡ type_in text.now sights.now member c) }
{
    match c {
        None => Ok(None),
        Some(c) => {
            let hits = seen(alloc, text, sights, Some(c), member)?;
            first_type(text, hits.as_slice())
        }
    }
}

/// The type that a member of a contract's name means.
pub(crate) fn member_type(
    alloc: Global,
    text: &DeclaredText,
    sights: &[Items<u32>],
    c: Option<u32>,
    name: u32,
    member: u32,
) -> Result<Option<TextType>, NoMemory>
    ensures { IfOk result (λ r. r ≡ member_type text.now sights.now c name member) }
{
    let hits = seen(alloc, text, sights, c, name)?;
    if hits.len() == 0 {
        let d = contract_named(text.contracts.as_slice(), name)?;
        type_in(alloc, text, sights, d, member)
    } else {
        Ok(None)
    }
}
