//! The struct that a name in a type means.
#![tactic(auto)]

ghost use Rattle.std.specs.Prelude.{◌≡◌, [], slice_index_or, IfOk};
ghost use Rattle.std.specs.Option.{option_copied};
ghost use Rattle.sv_member.specs.SeenNames.{declarations_of, has_name};
ghost use Rattle.sv_ring.specs.RingSteps.{contract_from, declaration_at, first_type, ground, in_contract, in_text, is_struct, is_type, meant, member, named, seen, struct_number, type_from};

use crate::numbers::{more, number_of, start_at};
use crate::scene::Scene;
use sqlite_items::Items;
use std::alloc::Global;
use sv_decl::{Declaration, DeclarationKind, DeclaredContract, TypePiece};
use sv_member::{Hit, seen_by};
use sv_text::NoMemory;

fn is_struct(k: &DeclarationKind) -> bool
    ensures { result ≡ is_struct k.now }
{
    match k {
        DeclarationKind::Struct(_) => true,
        DeclarationKind::Variable {
            of_type: _,
            words: _,
            value: _,
        } => false,
        DeclarationKind::Callable(_) => false,
        DeclarationKind::Enum(_) => false,
        DeclarationKind::Event(_) => false,
        DeclarationKind::Error(_) => false,
    }
}

/// The number of a declaration if it is a struct.
fn struct_number(n: u32, d: &Declaration) -> Option<u32>
    ensures { result ≡ struct_number n d.now }
{
    if is_struct(&d.kind) { Some(n) } else { None }
}

fn has_name(d: &Declaration, name: u32) -> bool
    ensures { result ≡ has_name name d.now }
{
    match d.name {
        None => false,
        Some(n) => n.position() == name,
    }
}

fn is_type(k: &DeclarationKind) -> bool
    ensures { result ≡ is_type k.now }
{
    match k {
        DeclarationKind::Struct(_) => true,
        DeclarationKind::Enum(_) => true,
        DeclarationKind::Variable {
            of_type: _,
            words: _,
            value: _,
        } => false,
        DeclarationKind::Callable(_) => false,
        DeclarationKind::Event(_) => false,
        DeclarationKind::Error(_) => false,
    }
}

/// The first type of the name, by number if it is a struct; the first declaration has number `first`.
fn type_of_name(list: &[Declaration], first: u32, name: u32) -> Result<Option<u32>, NoMemory>
    ensures { IfOk result (λ r. r ≡ type_from name first list.now) }
{
    let mut number = first;
    for d in list {
        if has_name(d, name) && is_type(&d.kind) {
            return Ok(struct_number(number, d));
        }
        number = more(number, 1)?;
    }
    Ok(None)
}

/// The number of the first contract of the name.
fn contract_named(contracts: &[DeclaredContract], name: u32) -> Result<Option<u32>, NoMemory>
    ensures { IfOk result (λ r. r ≡ contract_from name 0 contracts.now) }
{
    let mut number = 0u32;
    for c in contracts {
        if c.name.position() == name {
            return Ok(Some(number));
        }
        number = more(number, 1)?;
    }
    Ok(None)
}

/// What a name means outside of all contracts.
fn in_text(scene: Scene<'_>, name: u32) -> Result<Option<u32>, NoMemory>
    ensures { IfOk result (λ r. r ≡ in_text (ground scene.entry) name) }
{
    let contracts = scene.text.contracts.as_slice();
    match contract_named(contracts, name)? {
        Some(_) => Ok(None),
        None => {
            let first = start_at(scene.starts, contracts.len());
            type_of_name(scene.text.outside.as_slice(), first, name)
        }
    }
}

fn declarations_of(contracts: &[DeclaredContract], c: u32) -> &[Declaration]
    ensures { result.now ≡ declarations_of contracts.now c }
{
    match contracts.get(c as usize) {
        None => &[],
        Some(d) => d.declarations.as_slice(),
    }
}

/// The contracts whose names contract `c` sees.
fn line_of(lines: &[Items<u32>], c: u32) -> &[u32]
    ensures { result.now ≡ slice_index_or lines.now c [] }
{
    match lines.get(c as usize) {
        None => &[],
        Some(line) => line.as_slice(),
    }
}

fn declaration_at(contracts: &[DeclaredContract], h: Hit) -> Option<&Declaration>
    ensures { option_copied result ≡ declaration_at contracts.now h }
{
    declarations_of(contracts, h.contract).get(h.at)
}

/// The first type among what is seen, by number if it is a struct.
fn first_type(scene: Scene<'_>, hits: &[Hit]) -> Result<Option<u32>, NoMemory>
    ensures { IfOk result (λ r. r ≡ first_type (ground scene.entry) hits.now) }
{
    for h in hits {
        if let Some(d) = declaration_at(scene.text.contracts.as_slice(), *h) {
            if is_type(&d.kind) {
                let number = number_of(scene.starts, h.contract as usize, h.at)?;
                return Ok(struct_number(number, d));
            }
        }
    }
    Ok(None)
}

/// What a contract sees by a name.
fn seen(
    alloc: Global,
    scene: Scene<'_>,
    own: Option<u32>,
    name: u32,
) -> Result<Items<Hit>, NoMemory>
    ensures { IfOk result (λ r. r ≡ seen (ground scene.entry) own name) }
{
    match own {
        None => Ok(Items::new(alloc)),
        Some(c) => {
            let line = line_of(scene.lines, c);
            seen_by(alloc, scene.text.contracts.as_slice(), line, c, name)
        }
    }
}

/// What `S` means.
fn named(
    alloc: Global,
    scene: Scene<'_>,
    own: Option<u32>,
    name: u32,
) -> Result<Option<u32>, NoMemory>
    ensures { IfOk result (λ r. r ≡ named (ground scene.entry) own name) }
{
    let hits = seen(alloc, scene, own, name)?;
    if hits.is_empty() {
        in_text(scene, name)
    } else {
        first_type(scene, hits.as_slice())
    }
}

/// The struct of this name that a contract sees.
fn in_contract(
    alloc: Global,
    scene: Scene<'_>,
    c: Option<u32>,
    name: u32,
) -> Result<Option<u32>, NoMemory>
    ensures { IfOk result (λ r. r ≡ in_contract (ground scene.entry) c name) }
{
    let hits = seen(alloc, scene, c, name)?;
    first_type(scene, hits.as_slice())
}

/// What `C.S` means.
fn member(
    alloc: Global,
    scene: Scene<'_>,
    own: Option<u32>,
    c: u32,
    name: u32,
) -> Result<Option<u32>, NoMemory>
    ensures { IfOk result (λ r. r ≡ member (ground scene.entry) own c name) }
{
    let hits = seen(alloc, scene, own, c)?;
    if hits.is_empty() {
        let named = contract_named(scene.text.contracts.as_slice(), c)?;
        in_contract(alloc, scene, named, name)
    } else {
        Ok(None)
    }
}

/// The number of the struct that a piece of a type means.
pub fn meant(
    alloc: Global,
    scene: Scene<'_>,
    own: Option<u32>,
    p: TypePiece,
) -> Result<Option<u32>, NoMemory>
    ensures { IfOk result (λ r. r ≡ meant (ground scene.entry) own p) }
{
    match p {
        TypePiece::Named(n) => named(alloc, scene, own, n.position()),
        TypePiece::Member(c, n) => member(alloc, scene, own, c.position(), n.position()),
        TypePiece::Elementary(_) => Ok(None),
        TypePiece::Address(_) => Ok(None),
        TypePiece::String => Ok(None),
        TypePiece::Mapping => Ok(None),
        TypePiece::Dynamic => Ok(None),
        TypePiece::Fixed(_) => Ok(None),
    }
}
