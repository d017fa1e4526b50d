//! Functions without a body along the lines of contracts.
#![tactic(auto)]

ghost use Rattle.std.specs.Prelude.{◌≡◌, None};
ghost use Rattle.sv_abstract.specs.BodilessFunctions.{counts_in, counts_in_any, has_variable, is_bodiless, is_concrete, is_made, is_name, lacks_body, lacks_from, lacks_named, last_from};
ghost use Rattle.std.specs.Prelude.{slice_get};

use crate::by_name::{declarations_of, declares_function, declares_public, is_function};
use sqlite_items::Items;
use sv_decl::{Declaration, DeclarationKind, DeclaredContract, Standing};

/// The last contract of the line that declares a function of this name.
fn last_declaring(contracts: &[DeclaredContract], line: &[u32], name: u32) -> Option<u32>
    ensures { result ≡ last_from contracts.now name None line.now }
{
    let mut last = None;
    for c in line {
        if declares_function(declarations_of(contracts, *c), name) {
            last = Some(*c);
        }
    }
    last
}

/// Whether a contract of the line declares a public variable of this name.
fn has_variable(contracts: &[DeclaredContract], line: &[u32], name: u32) -> bool
    ensures { result ≡ has_variable contracts.now name line.now }
{
    for c in line {
        if declares_public(declarations_of(contracts, *c), name) {
            return true;
        }
    }
    false
}

/// Whether the function of contract `d` counts in the line, and no public variable has its name.
fn counts_in(contracts: &[DeclaredContract], line: &[u32], d: u32, name: u32) -> bool
    ensures { result ≡ counts_in contracts.now d name line.now }
{
    match last_declaring(contracts, line, name) {
        None => false,
        Some(last) => last == d && !has_variable(contracts, line, name),
    }
}

fn counts_in_any(
    contracts: &[DeclaredContract],
    line: &Option<Items<u32>>,
    d: u32,
    name: u32,
) -> bool
    ensures { result ≡ counts_in_any contracts.now d name line.now }
{
    match line {
        None => false,
        Some(l) => counts_in(contracts, l.as_slice(), d, name),
    }
}

fn is_concrete(standing: Standing) -> bool
    ensures { result ≡ is_concrete standing }
{
    match standing {
        Standing::Concrete => true,
        Standing::Abstract => false,
        Standing::Interface => false,
    }
}

/// Whether there is a contract of this number that is neither abstract nor an interface.
fn is_made(contracts: &[DeclaredContract], c: usize) -> bool
    ensures { result ≡ is_made (slice_get contracts.now c) }
{
    match contracts.get(c) {
        None => false,
        Some(own) => is_concrete(own.standing),
    }
}

/// Whether it counts in the line of such a contract.
fn lacks_in_lines(
    contracts: &[DeclaredContract],
    lines: &[Option<Items<u32>>],
    d: u32,
    name: u32,
) -> bool
    ensures { result ≡ lacks_from contracts.now d name 0 lines.now }
{
    let mut at = 0usize;
    for line in lines {
        if is_made(contracts, at) && counts_in_any(contracts, line, d, name) {
            return true;
        }
        at += 1;
    }
    false
}

fn is_bodiless(k: &DeclarationKind) -> bool
    ensures { result ≡ is_bodiless k.now }
{
    match k {
        DeclarationKind::Callable(s) => is_function(s.callable) && !s.has_body,
        DeclarationKind::Variable {
            of_type: _,
            words: _,
            value: _,
        } => false,
        DeclarationKind::Struct(_) => false,
        DeclarationKind::Enum(_) => false,
        DeclarationKind::Event(_) => false,
        DeclarationKind::Error(_) => false,
    }
}

/// Whether a declaration of contract `d` is a function without a body that counts in a contract that can be made.
pub fn lacks_body(
    contracts: &[DeclaredContract],
    lines: &[Option<Items<u32>>],
    d: u32,
    f: &Declaration,
) -> bool
    ensures { result ≡ lacks_body contracts.now lines.now d f.now }
{
    match f.name {
        None => false,
        Some(n) => is_bodiless(&f.kind) && lacks_in_lines(contracts, lines, d, n.position()),
    }
}
