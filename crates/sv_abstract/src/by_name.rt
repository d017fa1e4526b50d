//! Functions and public variables by name.
#![tactic(auto)]

ghost use Rattle.std.specs.Prelude.{◌≡◌};
ghost use Rattle.sv_abstract.specs.BodilessFunctions.{declarations_of, declares_function, declares_public, has_name, has_public, is_function, is_function_kind, is_public_variable, is_public_word};

use sv_decl::{Callable, Declaration, DeclarationKind, DeclaredContract, Word};

fn is_public_word(w: Word) -> bool
    ensures { result ≡ is_public_word w }
{
    match w {
        Word::Public => true,
        Word::Private => false,
        Word::Internal => false,
        Word::External => false,
        Word::Pure => false,
        Word::View => false,
        Word::Payable => false,
        Word::Virtual => false,
        Word::Override => false,
        Word::Constant => false,
        Word::Immutable => false,
    }
}

fn has_public(words: &[Word]) -> bool
    ensures { result ≡ has_public words.now }
{
    for w in words {
        if is_public_word(*w) {
            return true;
        }
    }
    false
}

pub fn is_function(callable: Callable) -> bool
    ensures { result ≡ is_function callable }
{
    match callable {
        Callable::Function => true,
        Callable::Constructor => false,
        Callable::Special => false,
        Callable::Modifier => false,
    }
}

fn has_name(d: &Declaration, name: u32) -> bool
    ensures { result ≡ has_name name d.now }
{
    match d.name {
        None => false,
        Some(n) => n.position() == name,
    }
}

fn is_function_kind(k: &DeclarationKind) -> bool
    ensures { result ≡ is_function_kind k.now }
{
    match k {
        DeclarationKind::Callable(s) => is_function(s.callable),
        DeclarationKind::Variable {
            of_type: _,
            words: _,
            value: _,
        } => false,
        DeclarationKind::Struct(_) => false,
        DeclarationKind::Enum(_) => false,
        DeclarationKind::Event(_) => false,
        DeclarationKind::Error(_) => false,
    }
}

fn is_public_variable(k: &DeclarationKind) -> bool
    ensures { result ≡ is_public_variable k.now }
{
    match k {
        DeclarationKind::Variable {
            of_type: _,
            words,
            value: _,
        } => has_public(words.as_slice()),
        DeclarationKind::Callable(_) => false,
        DeclarationKind::Struct(_) => false,
        DeclarationKind::Enum(_) => false,
        DeclarationKind::Event(_) => false,
        DeclarationKind::Error(_) => false,
    }
}

/// Whether a function of this name is among the declarations.
pub fn declares_function(list: &[Declaration], name: u32) -> bool
    ensures { result ≡ declares_function name list.now }
{
    for d in list {
        if has_name(d, name) && is_function_kind(&d.kind) {
            return true;
        }
    }
    false
}

/// Whether a public variable of this name is among the declarations.
pub fn declares_public(list: &[Declaration], name: u32) -> bool
    ensures { result ≡ declares_public name list.now }
{
    for d in list {
        if has_name(d, name) && is_public_variable(&d.kind) {
            return true;
        }
    }
    false
}

pub fn declarations_of(contracts: &[DeclaredContract], c: u32) -> &[Declaration]
    ensures { result.now ≡ declarations_of contracts.now c }
{
    match contracts.get(c as usize) {
        None => &[],
        Some(d) => d.declarations.as_slice(),
    }
}
