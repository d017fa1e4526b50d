//! Names along lines.
#![tactic(auto)]

ghost use Rattle.std.specs.Prelude.{◌≡◌};
ghost use Rattle.sv_duplicate.specs.Duplicates.{is_met, is_public_variable, is_request, is_variable_kind, lacks_body, meets, meets_along, meets_beside, meets_in, meets_somewhere, stands_for};

use sqlite_items::Items;
use sv_decl::{Declaration, DeclarationKind, DeclaredContract};
use sv_member::is_private;
use sv_rival::{
    declarations_of, has, is_external, is_function, is_public, is_rival, line_of, or_empty,
    same_name, stands_before,
};

fn is_variable_kind(k: &DeclarationKind) -> bool
    ensures { result ≡ is_variable_kind k.now }
{
    match k {
        DeclarationKind::Variable {
            of_type: _,
            words: _,
            value: _,
        } => true,
        _ => false,
    }
}

fn is_public_variable(f: &Declaration) -> bool
    ensures { result ≡ is_public_variable f.now }
{
    is_variable_kind(&f.kind) && is_public(f)
}

fn lacks_body(k: &DeclarationKind) -> bool
    ensures { result ≡ lacks_body k.now }
{
    match k {
        DeclarationKind::Callable(s) => !s.has_body,
        _ => false,
    }
}

/// Whether it is an external function without a body.
fn is_request(g: &Declaration) -> bool
    ensures { result ≡ is_request g.now }
{
    is_function(g) && (is_external(g) && lacks_body(&g.kind))
}

/// Whether `f` is a public variable that stands for `g`, whose contract its own derives from or doesn't.
fn stands_for(derives: bool, f: &Declaration, g: &Declaration) -> bool
    ensures { result ≡ stands_for derives f.now g.now }
{
    derives && (is_public_variable(f) && is_request(g))
}

/// Whether `g` of another contract takes the name of `f`.
fn meets(derives: bool, f: &Declaration, g: &Declaration) -> bool
    ensures { result ≡ meets derives f.now g.now }
{
    same_name(f.name, g.name)
        && (stands_before(g, f)
            && (!is_private(g) && (!is_rival(f, g) && !stands_for(derives, f, g))))
}

/// Whether contract `d` has such a one.
fn meets_in(
    contracts: &[DeclaredContract],
    lines: &[Option<Items<u32>>],
    f: &Declaration,
    c: u32,
    d: u32,
) -> bool
    ensures { result ≡ meets_in contracts.now lines.now f.now c d }
{
    let derives = has(line_of(lines, c), d);
    declarations_of(contracts, d)
        .iter()
        .any(|g| meets(derives, f, g))
}

/// Whether another contract of the line has such a one.
fn meets_beside(
    contracts: &[DeclaredContract],
    lines: &[Option<Items<u32>>],
    f: &Declaration,
    c: u32,
    line: &[u32],
) -> bool
    ensures { result ≡ meets_beside contracts.now lines.now f.now c line.now }
{
    line.iter()
        .any(|d| *d != c && meets_in(contracts, lines, f, c, *d))
}

fn meets_along(
    contracts: &[DeclaredContract],
    lines: &[Option<Items<u32>>],
    f: &Declaration,
    c: u32,
    line: &[u32],
) -> bool
    ensures { result ≡ meets_along contracts.now lines.now f.now c line.now }
{
    has(line, c) && meets_beside(contracts, lines, f, c, line)
}

/// Whether it is so along the line of some contract.
fn meets_somewhere(
    contracts: &[DeclaredContract],
    lines: &[Option<Items<u32>>],
    f: &Declaration,
    c: u32,
) -> bool
    ensures { result ≡ meets_somewhere contracts.now lines.now f.now c }
{
    lines
        .iter()
        .any(|line| meets_along(contracts, lines, f, c, or_empty(line)))
}

/// Whether the name of `f` of contract `c` is taken in another contract of a line along which it is seen.
pub(crate) fn is_met(
    contracts: &[DeclaredContract],
    lines: &[Option<Items<u32>>],
    f: &Declaration,
    c: u32,
) -> bool
    ensures { result ≡ is_met contracts.now lines.now f.now c }
{
    meets_along(contracts, lines, f, c, line_of(lines, c))
        || (!is_private(f) && meets_somewhere(contracts, lines, f, c))
}
