//! Declarations by name.
#![tactic(auto)]

ghost use Rattle.std.specs.Prelude.{◌≡◌, ◌++◌, IfOk, OnOk};
ghost use Rattle.sv_member.specs.SeenNames.{declarations_of, has_name, has_private, is_private, is_private_word, is_seen, seen_by, seen_from, words_of};

use sqlite_items::Items;
use std::alloc::Global;
use sv_decl::{Declaration, DeclarationKind, DeclaredContract, Word};
use sv_text::NoMemory;

/// A declaration by number: that of its contract, and its position in it.
#[derive(Clone, Copy, Debug, PartialEq, Eq)]
pub struct Hit {
    pub contract: u32,
    pub at: usize,
}

fn is_private_word(w: Word) -> bool
    ensures { result ≡ is_private_word w }
{
    match w {
        Word::Private => true,
        Word::Public => false,
        Word::Internal => false,
        Word::External => false,
        Word::Pure => false,
        Word::View => false,
        Word::Payable => false,
        Word::Virtual => false,
        Word::Override => false,
        Word::Constant => false,
        Word::Immutable => false,
    }
}

fn has_private(words: &[Word]) -> bool
    ensures { result ≡ has_private words.now }
{
    for w in words {
        if is_private_word(*w) {
            return true;
        }
    }
    false
}

fn words_of(k: &DeclarationKind) -> &[Word]
    ensures { result.now ≡ words_of k.now }
{
    match k {
        DeclarationKind::Variable {
            of_type: _,
            words,
            value: _,
        } => words.as_slice(),
        DeclarationKind::Callable(s) => s.words.as_slice(),
        DeclarationKind::Struct(_) => &[],
        DeclarationKind::Enum(_) => &[],
        DeclarationKind::Event(_) => &[],
        DeclarationKind::Error(_) => &[],
    }
}

/// Whether a declaration is private.
pub fn is_private(d: &Declaration) -> bool
    ensures { result ≡ is_private d.now }
{
    has_private(words_of(&d.kind))
}

fn has_name(d: &Declaration, name: u32) -> bool
    ensures { result ≡ has_name name d.now }
{
    match d.name {
        None => false,
        Some(n) => n.position() == name,
    }
}

/// Whether a contract sees a declaration by a name: one of its own, or one that isn't private.
fn is_seen(d: &Declaration, own: bool, name: u32) -> bool
    ensures { result ≡ is_seen own name d.now }
{
    has_name(d, name) && (own || !is_private(d))
}

/// What is seen among the declarations of contract `c`.
fn add_seen(
    hits: &mut Items<Hit>,
    list: &[Declaration],
    own: bool,
    name: u32,
    c: u32,
) -> Result<(), NoMemory>
    ensures { OnOk result (hits.new ≡ hits.old ++ seen_from own name c 0 list.now) }
{
    let mut at = 0usize;
    for d in list {
        if is_seen(d, own, name) {
            hits.push(Hit { contract: c, at })?;
        }
        at += 1;
    }
    Ok(())
}

fn declarations_of(contracts: &[DeclaredContract], c: u32) -> &[Declaration]
    ensures { result.now ≡ declarations_of contracts.now c }
{
    match contracts.get(c as usize) {
        None => &[],
        Some(d) => d.declarations.as_slice(),
    }
}

/// What contract `c` sees by a name in the contracts of its line, in order of the line.
pub fn seen_by(
    alloc: Global,
    contracts: &[DeclaredContract],
    line: &[u32],
    c: u32,
    name: u32,
) -> Result<Items<Hit>, NoMemory>
    ensures { IfOk result (λ r. r ≡ seen_by contracts.now c name line.now) }
{
    let mut hits = Items::new(alloc);
    for d in line {
        add_seen(&mut hits, declarations_of(contracts, *d), *d == c, name, *d)?;
    }
    Ok(hits)
}
