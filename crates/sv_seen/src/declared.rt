//! What names mean that are declared in a contract or outside of all.
#![tactic(auto)]

ghost use Rattle.std.specs.Prelude.{◌≡◌, IfOk};
ghost use Rattle.sv_member.specs.SeenNames.{has_name};
ghost use Rattle.sv_seen.specs.NameMeanings.{contract_from, has_external, in_contract, in_text, is_external, is_external_word, last_meant, meant, meant_at, outside_named};

use std::alloc::Global;
use sv_decl::{Declaration, DeclarationKind, DeclaredContract, DeclaredText, Word};
use sv_member::{Hit, seen_by};
use sv_target::{Target, target_of};
use sv_text::{Name, NoMemory};

fn is_external_word(w: Word) -> bool
    ensures { result ≡ is_external_word w }
{
    match w {
        Word::External => true,
        Word::Public => false,
        Word::Private => false,
        Word::Internal => false,
        Word::Pure => false,
        Word::View => false,
        Word::Payable => false,
        Word::Virtual => false,
        Word::Override => false,
        Word::Constant => false,
        Word::Immutable => false,
    }
}

fn has_external(words: &[Word]) -> bool
    ensures { result ≡ has_external words.now }
{
    for w in words {
        if is_external_word(*w) {
            return true;
        }
    }
    false
}

/// Whether it is an external function.
fn is_external(k: &DeclarationKind) -> bool
    ensures { result ≡ is_external k.now }
{
    match k {
        DeclarationKind::Variable {
            of_type: _,
            words: _,
            value: _,
        } => false,
        DeclarationKind::Callable(s) => has_external(s.words.as_slice()),
        DeclarationKind::Struct(_) => false,
        DeclarationKind::Enum(_) => false,
        DeclarationKind::Event(_) => false,
        DeclarationKind::Error(_) => false,
    }
}

/// What its name means in the contracts that see it.
fn meant(text: &DeclaredText, d: &Declaration) -> Result<Option<Target>, NoMemory>
    ensures { IfOk result (λ t. t ≡ meant text.now d.now) }
{
    if is_external(&d.kind) {
        Ok(None)
    } else {
        target_of(text, d)
    }
}

fn meant_at(text: &DeclaredText, h: Hit) -> Result<Option<Target>, NoMemory>
    ensures { IfOk result (λ t. t ≡ meant_at text.now h) }
{
    match text.contracts.get(h.contract as usize) {
        None => Ok(None),
        Some(c) => match c.declarations.get(h.at) {
            None => Ok(None),
            Some(d) => meant(text, d),
        },
    }
}

/// What the last of these declarations means that can be named.
fn last_meant(text: &DeclaredText, hits: &[Hit]) -> Result<Option<Target>, NoMemory>
    ensures { IfOk result (λ t. t ≡ last_meant text.now hits.now) }
{
    let mut last = None;
    for h in hits {
        if let Some(t) = meant_at(text, *h)? {
            last = Some(t);
        }
    }
    Ok(last)
}

/// What contract `c` means by a name, which sees the names of the contracts of `line`. The most derived counts.
pub fn in_contract(
    alloc: Global,
    text: &DeclaredText,
    line: &[u32],
    c: u32,
    name: Name,
) -> Result<Option<Target>, NoMemory>
    ensures { IfOk result (λ t. t ≡ in_contract text.now line.now c name) }
{
    let hits = seen_by(alloc, text.contracts.as_slice(), line, c, name.position())?;
    last_meant(text, hits.as_slice())
}

/// The number of the first contract of a name.
fn contract_named(contracts: &[DeclaredContract], name: u32) -> Result<Option<u32>, NoMemory>
    ensures { IfOk result (λ c. c ≡ contract_from name 0 contracts.now) }
{
    let mut number = 0u32;
    for c in contracts {
        if c.name.position() == name {
            return Ok(Some(number));
        }
        number = number.checked_add(1).ok_or(NoMemory)?;
    }
    Ok(None)
}

fn has_name(d: &Declaration, name: u32) -> bool
    ensures { result ≡ has_name name d.now }
{
    match d.name {
        None => false,
        Some(n) => n.position() == name,
    }
}

/// What the first of these means that has the name.
fn outside_named(
    text: &DeclaredText,
    list: &[Declaration],
    name: u32,
) -> Result<Option<Target>, NoMemory>
    ensures { IfOk result (λ t. t ≡ outside_named text.now name list.now) }
{
    for d in list {
        if has_name(d, name) {
            return target_of(text, d);
        }
    }
    Ok(None)
}

/// What a name means outside of all contracts: the contract of the name, or else what is declared by the name.
pub fn in_text(text: &DeclaredText, name: Name) -> Result<Option<Target>, NoMemory>
    ensures { IfOk result (λ t. t ≡ in_text text.now name) }
{
    match contract_named(text.contracts.as_slice(), name.position())? {
        Some(c) => Ok(Some(Target::Contract(c))),
        None => outside_named(text, text.outside.as_slice(), name.position()),
    }
}
