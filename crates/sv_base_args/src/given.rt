//! Where arguments for constructors of bases are given.
#![tactic(auto)]

ghost use Rattle.std.specs.Prelude.{◌≡◌, slice_get};
ghost use Rattle.std.specs.List.{list_any};
ghost use Rattle.sv_base_args.specs.BaseArguments.{begins, behind, gives, gives_behind, gives_in, is_constructor, is_given_along, is_sought, use_at, use_in, use_behind};

use sv_decl::{Callable, Declaration, DeclarationKind, DeclaredContract, Given, Named};

/// Where a name that may have arguments stands in a contract.
#[derive(Clone, Copy, Debug, PartialEq, Eq)]
pub enum UsePlace {
    /// In its list of bases, by number.
    Base(usize),
    /// Behind the parameters of one of its declarations, both by number.
    Head { declaration: usize, at: usize },
}

/// Arguments for the contract of a name; those alone that begin before a byte, where one is said.
#[derive(Clone, Copy)]
pub struct Sought {
    pub name: u32,
    pub before: Option<u32>,
}

pub fn is_constructor(callable: Callable) -> bool
    ensures { result ≡ is_constructor callable }
{
    match callable {
        Callable::Constructor => true,
        Callable::Function => false,
        Callable::Special => false,
        Callable::Modifier => false,
    }
}

/// The names of bases behind a constructor; behind all else stand modifiers.
fn behind(k: &DeclarationKind) -> &[Named]
    ensures { result.now ≡ behind k.now }
{
    match k {
        DeclarationKind::Callable(s) => {
            if is_constructor(s.callable) {
                s.uses.as_slice()
            } else {
                &[]
            }
        }
        DeclarationKind::Variable {
            of_type: _,
            words: _,
            value: _,
        } => &[],
        DeclarationKind::Struct(_) => &[],
        DeclarationKind::Enum(_) => &[],
        DeclarationKind::Event(_) => &[],
        DeclarationKind::Error(_) => &[],
    }
}

fn begins(given: &Given, before: Option<u32>) -> bool
    ensures { result ≡ begins before given.now }
{
    match before {
        None => true,
        Some(byte) => given.spot.span.from < byte,
    }
}

fn is_sought(u: &Named, sought: Sought) -> bool
    ensures { result ≡ is_sought sought u.now }
{
    match &u.given {
        None => false,
        Some(given) => u.name.position() == sought.name && begins(given, sought.before),
    }
}

/// Whether one of the names has such arguments.
fn are_among(uses: &[Named], sought: Sought) -> bool
    ensures { result ≡ list_any (is_sought sought) uses.now }
{
    for u in uses {
        if is_sought(u, sought) {
            return true;
        }
    }
    false
}

/// Whether a contract gives such arguments, in its list of bases or behind a constructor.
fn gives(c: &DeclaredContract, sought: Sought) -> bool
    ensures { result ≡ gives sought c.now }
{
    are_among(c.bases.as_slice(), sought) || gives_behind(c.declarations.as_slice(), sought)
}

fn gives_behind(declarations: &[Declaration], sought: Sought) -> bool
    ensures { result ≡ gives_behind sought declarations.now }
{
    for d in declarations {
        if are_among(behind(&d.kind), sought) {
            return true;
        }
    }
    false
}

fn gives_in(contracts: &[DeclaredContract], d: u32, sought: Sought) -> bool
    ensures { result ≡ gives_in sought (slice_get contracts.now d) }
{
    match contracts.get(d as usize) {
        None => false,
        Some(c) => gives(c, sought),
    }
}

/// Whether a contract of the line gives such arguments.
pub fn is_given_along(contracts: &[DeclaredContract], line: &[u32], sought: Sought) -> bool
    ensures { result ≡ is_given_along contracts.now sought line.now }
{
    for d in line {
        if gives_in(contracts, *d, sought) {
            return true;
        }
    }
    false
}

/// The name behind a constructor with this number.
fn use_behind(declarations: &[Declaration], declaration: usize, at: usize) -> Option<Named>
    ensures { result ≡ use_behind declaration at declarations.now }
{
    match declarations.get(declaration) {
        None => None,
        Some(d) => behind(&d.kind).get(at).copied(),
    }
}

/// The name of a base that stands there.
fn use_in(c: &DeclaredContract, place: UsePlace) -> Option<Named>
    ensures { result ≡ use_in place c.now }
{
    match place {
        UsePlace::Base(at) => c.bases.as_slice().get(at).copied(),
        UsePlace::Head { declaration, at } => {
            use_behind(c.declarations.as_slice(), declaration, at)
        }
    }
}

pub fn use_at(contracts: &[DeclaredContract], c: u32, place: UsePlace) -> Option<Named>
    ensures { result ≡ use_at contracts.now c place }
{
    match contracts.get(c as usize) {
        None => None,
        Some(own) => use_in(own, place),
    }
}
