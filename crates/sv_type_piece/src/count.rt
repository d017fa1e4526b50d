//! Structs and enums by number.
#![tactic(auto)]

ghost use Rattle.std.specs.Prelude.{◌≡◌, ◌+◌, IfOk, slice_get, take};
ghost use Rattle.sv_type_piece.specs.DeclaredTypes.{block, count_in, count_of, is_kind, kind_at, kind_of, number, type_at, type_of};

use sv_decl::{Declaration, DeclarationKind, DeclaredContract, DeclaredText};
use sv_member::Hit;
use sv_text::NoMemory;
use sv_text_type::TextType;

/// A declaration that is a type.
#[derive(Clone, Copy, Debug, PartialEq, Eq)]
pub(crate) enum TypeKind {
    Struct,
    Enum,
}

fn kind_of(k: &DeclarationKind) -> Option<TypeKind>
    ensures { result ≡ kind_of k.now }
{
    match k {
        DeclarationKind::Struct(_) => Some(TypeKind::Struct),
        DeclarationKind::Enum(_) => Some(TypeKind::Enum),
        DeclarationKind::Variable {
            of_type: _,
            words: _,
            value: _,
        } => None,
        DeclarationKind::Callable(_) => None,
        DeclarationKind::Event(_) => None,
        DeclarationKind::Error(_) => None,
    }
}

fn is_kind(k: TypeKind, d: &Declaration) -> bool
    ensures { result ≡ is_kind k d.now }
{
    match (k, kind_of(&d.kind)) {
        (TypeKind::Struct, Some(TypeKind::Struct)) => true,
        (TypeKind::Enum, Some(TypeKind::Enum)) => true,
        _ => false,
    }
}

fn sum_of(a: u32, b: u32) -> Result<u32, NoMemory>
    ensures { IfOk result (λ r. r ≡ a + b) }
{
    match a.checked_add(b) {
        None => Err(NoMemory),
        Some(sum) => Ok(sum),
    }
}

/// How many of the kind are among these declarations. More than a number can count are answered as want of memory.
fn count_of(k: TypeKind, list: &[Declaration]) -> Result<u32, NoMemory>
    ensures { IfOk result (λ r. r ≡ count_of k list.now) }
{
    let mut count = 0u32;
    for d in list {
        if is_kind(k, d) {
            count = sum_of(count, 1)?;
        }
    }
    Ok(count)
}

fn count_in(k: TypeKind, contracts: &[DeclaredContract]) -> Result<u32, NoMemory>
    ensures { IfOk result (λ r. r ≡ count_in k contracts.now) }
{
    let mut count = 0u32;
    for c in contracts {
        count = sum_of(count, count_of(k, c.declarations.as_slice())?)?;
    }
    Ok(count)
}

/// The first of a list, or all where there are no more.
fn first<T>(list: &[T], n: usize) -> &[T]
    ensures { result.now ≡ take n list.now }
{
    if n < list.len() { &list[..n] } else { list }
}

/// The declarations of a contract, or those outside of all.
fn block(text: &DeclaredText, c: u32) -> &[Declaration]
    ensures { result.now ≡ block text.now c }
{
    match text.contracts.as_slice().get(c as usize) {
        None => text.outside.as_slice(),
        Some(d) => d.declarations.as_slice(),
    }
}

fn number(text: &DeclaredText, k: TypeKind, h: Hit) -> Result<u32, NoMemory>
    ensures { IfOk result (λ r. r ≡ number text.now k h) }
{
    let above = count_in(k, first(text.contracts.as_slice(), h.contract as usize))?;
    let before = count_of(k, first(block(text, h.contract), h.at))?;
    sum_of(above, before)
}

fn kind_at(text: &DeclaredText, h: Hit) -> Option<TypeKind>
    ensures { result ≡ kind_at (slice_get (block text.now h.contract) h.at) }
{
    match block(text, h.contract).get(h.at) {
        None => None,
        Some(d) => kind_of(&d.kind),
    }
}

fn type_of(k: TypeKind, n: u32) -> TextType
    ensures { result ≡ type_of k n }
{
    match k {
        TypeKind::Struct => TextType::Struct(n),
        TypeKind::Enum => TextType::Enum(n),
    }
}

/// The type that is declared there.
pub(crate) fn type_at(text: &DeclaredText, h: Hit) -> Result<Option<TextType>, NoMemory>
    ensures { IfOk result (λ r. r ≡ type_at text.now h) }
{
    match kind_at(text, h) {
        None => Ok(None),
        Some(k) => Ok(Some(type_of(k, number(text, k, h)?))),
    }
}
