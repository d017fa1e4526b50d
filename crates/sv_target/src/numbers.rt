//! The numbers of declarations.
#![tactic(auto)]

ghost use Rattle.std.specs.Prelude.{◌≡◌, ◌+◌, map, IfOk};
ghost use Rattle.std.specs.List.{count_by};
ghost use Rattle.sv_target.specs.TargetNumbers.{counted, earlier_in, is_earlier, is_same, number_of, target, target_of, targets, targets_inside};

use crate::target::{Counted, Target, Targets};
use sqlite_items::Items;
use std::alloc::Global;
use sv_decl::{Callable, Declaration, DeclarationKind, DeclaredContract, DeclaredText};
use sv_text::NoMemory;

/// With what a declaration is counted.
fn counted(k: &DeclarationKind) -> Option<Counted>
    ensures { result ≡ counted k.now }
{
    match k {
        DeclarationKind::Variable {
            of_type: _,
            words: _,
            value: _,
        } => Some(Counted::Variables),
        DeclarationKind::Callable(s) => match s.callable {
            Callable::Function => Some(Counted::Functions),
            Callable::Modifier => Some(Counted::Modifiers),
            Callable::Constructor => None,
            Callable::Special => None,
        },
        DeclarationKind::Struct(_) => Some(Counted::StructsAndEnums),
        DeclarationKind::Enum(_) => Some(Counted::StructsAndEnums),
        DeclarationKind::Event(_) => Some(Counted::Events),
        DeclarationKind::Error(_) => Some(Counted::Errors),
    }
}

fn is_same(a: Counted, b: Counted) -> bool
    ensures { result ≡ is_same a b }
{
    match a {
        Counted::Variables => matches!(&b, Counted::Variables),
        Counted::Functions => matches!(&b, Counted::Functions),
        Counted::Modifiers => matches!(&b, Counted::Modifiers),
        Counted::StructsAndEnums => matches!(&b, Counted::StructsAndEnums),
        Counted::Events => matches!(&b, Counted::Events),
        Counted::Errors => matches!(&b, Counted::Errors),
    }
}

/// Whether a declaration is counted so and begins before this byte.
fn is_earlier(d: &Declaration, kind: Counted, byte: u32) -> bool
    ensures { result ≡ is_earlier kind byte d.now }
{
    match counted(&d.kind) {
        None => false,
        Some(own) => is_same(own, kind) && d.spot.span.from < byte,
    }
}

/// So many, and how many of a list are earlier.
fn add_earlier(count: u32, list: &[Declaration], kind: Counted, byte: u32) -> Result<u32, NoMemory>
    ensures { IfOk result (λ n. n ≡ count + count_by (is_earlier kind byte) list.now) }
{
    let mut sum = count;
    for d in list {
        if is_earlier(d, kind, byte) {
            sum = sum.checked_add(1).ok_or(NoMemory)?;
        }
    }
    Ok(sum)
}

/// How many are earlier in contracts.
fn earlier_in(contracts: &[DeclaredContract], kind: Counted, byte: u32) -> Result<u32, NoMemory>
    ensures { IfOk result (λ n. n ≡ earlier_in kind byte contracts.now) }
{
    let mut sum = 0u32;
    for c in contracts {
        sum = add_earlier(sum, c.declarations.as_slice(), kind, byte)?;
    }
    Ok(sum)
}

fn number_of(text: &DeclaredText, kind: Counted, byte: u32) -> Result<u32, NoMemory>
    ensures { IfOk result (λ n. n ≡ number_of text.now kind byte) }
{
    let inside = earlier_in(text.contracts.as_slice(), kind, byte)?;
    add_earlier(inside, text.outside.as_slice(), kind, byte)
}

fn target(kind: Counted, number: u32) -> Target
    ensures { result ≡ target kind number }
{
    match kind {
        Counted::Variables => Target::Var(number),
        Counted::Functions => Target::Func(number),
        Counted::Modifiers => Target::Modifier(number),
        Counted::StructsAndEnums => Target::Named(number),
        Counted::Events => Target::Event(number),
        Counted::Errors => Target::Error(number),
    }
}

/// What the name of a declaration of the text means. A text with 2^32 declarations of one kind is answered with want of memory.
pub fn target_of(text: &DeclaredText, d: &Declaration) -> Result<Option<Target>, NoMemory>
    ensures { IfOk result (λ t. t ≡ target_of text.now d.now) }
{
    match counted(&d.kind) {
        None => Ok(None),
        Some(kind) => {
            let number = number_of(text, kind, d.spot.span.from)?;
            Ok(Some(target(kind, number)))
        }
    }
}

fn targets_of(
    alloc: Global,
    text: &DeclaredText,
    list: &[Declaration],
) -> Result<Items<Option<Target>>, NoMemory>
    ensures { IfOk result (λ r. r ≡ map (target_of text.now) list.now) }
{
    let mut found = Items::new(alloc);
    for d in list {
        found.push(target_of(text, d)?)?;
    }
    Ok(found)
}

fn targets_inside(
    alloc: Global,
    text: &DeclaredText,
    contracts: &[DeclaredContract],
) -> Result<Items<Items<Option<Target>>>, NoMemory>
    ensures { IfOk result (λ r. r ≡ targets_inside text.now contracts.now) }
{
    let mut found = Items::new(alloc);
    for c in contracts {
        found.push(targets_of(alloc, text, c.declarations.as_slice())?)?;
    }
    Ok(found)
}

/// What the name of each declaration means.
pub fn targets(alloc: Global, text: &DeclaredText) -> Result<Targets, NoMemory>
    ensures { IfOk result (λ r. r ≡ targets text.now) }
{
    Ok(Targets {
        inside: targets_inside(alloc, text, text.contracts.as_slice())?,
        outside: targets_of(alloc, text, text.outside.as_slice())?,
    })
}
