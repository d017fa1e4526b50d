//! The rule on overrides.
#![tactic(auto)]

ghost use Rattle.std.specs.Prelude.{◌≡◌};
ghost use Rattle.sv_override.specs.Overrides.{agrees, are_apart, breaks, breaks_override, clashes, clashes_along, clashes_beside, clashes_in, clashes_somewhere, has_other, heir, is_heir_apart, is_interface, is_interface_standing, is_lone_interface, is_refused, lacks_override, needs_override, refuses, refuses_in};

use sqlite_items::Items;
use sv_decl::{Declaration, DeclaredContract, Standing};
use sv_rival::{
    declarations_of, has, has_rival, have_same_params, is_external, is_function, is_override,
    is_rival, is_virtual, line_of, or_empty, stands_before, types_of,
};
use sv_typed::{TypedCallable, TypedContract, same_locations, same_params, same_results};

fn is_interface_standing(standing: Standing) -> bool
    ensures { result ≡ is_interface_standing standing }
{
    matches!(standing, Standing::Interface)
}

fn is_interface(contracts: &[DeclaredContract], d: u32) -> bool
    ensures { result ≡ is_interface contracts.now d }
{
    match contracts.get(d as usize) {
        None => false,
        Some(d) => is_interface_standing(d.standing),
    }
}

/// Whether a contract above `c`, another than `d`, has one of the name.
fn has_other(contracts: &[DeclaredContract], f: &Declaration, line: &[u32], c: u32, d: u32) -> bool
    ensures { result ≡ has_other contracts.now f.now line.now c d }
{
    line.iter()
        .any(|e| *e != c && (*e != d && has_rival(contracts, f, *e)))
}

/// Whether contract `d` is an interface, and no other contract above `c` has one of the name.
fn is_lone_interface(
    contracts: &[DeclaredContract],
    f: &Declaration,
    line: &[u32],
    c: u32,
    d: u32,
) -> bool
    ensures { result ≡ is_lone_interface contracts.now f.now line.now c d }
{
    is_interface(contracts, d) && !has_other(contracts, f, line, c, d)
}

/// Whether `f` of contract `c` is to have `override`.
fn needs_override(contracts: &[DeclaredContract], f: &Declaration, line: &[u32], c: u32) -> bool
    ensures { result ≡ needs_override contracts.now f.now line.now c }
{
    line.iter().any(|d| {
        *d != c && (has_rival(contracts, f, *d) && !is_lone_interface(contracts, f, line, c, *d))
    })
}

fn lacks_override(contracts: &[DeclaredContract], f: &Declaration, line: &[u32], c: u32) -> bool
    ensures { result ≡ lacks_override contracts.now f.now line.now c }
{
    !is_override(f) && needs_override(contracts, f, line, c)
}

/// Whether the types suit an override of one that is external or not.
fn agrees(external: bool, a: &Option<TypedCallable>, b: &Option<TypedCallable>) -> bool
    ensures { result ≡ agrees external a.now b.now }
{
    match (a, b) {
        (Some(a), Some(b)) => {
            same_params(a, b) && same_results(a, b) && (external || same_locations(a, b))
        }
        _ => false,
    }
}

/// Whether `g`, virtual by its contract or not, has the name of `f` and can't be overridden by it.
fn refuses(
    by_contract: bool,
    f: &Declaration,
    types: &Option<TypedCallable>,
    g: &Declaration,
    others: &Option<TypedCallable>,
) -> bool
    ensures { result ≡ refuses by_contract f.now types.now (g.now, others.now) }
{
    is_rival(f, g) && !((by_contract || is_virtual(g)) && agrees(is_external(g), types, others))
}

/// Whether contract `d` has one that `f` can't override.
fn refuses_in(
    contracts: &[DeclaredContract],
    typed: &[TypedContract],
    f: &Declaration,
    types: &Option<TypedCallable>,
    d: u32,
) -> bool
    ensures { result ≡ refuses_in contracts.now typed.now f.now types.now d }
{
    let by_contract = is_interface(contracts, d);
    declarations_of(contracts, d)
        .iter()
        .zip(types_of(typed, d).iter())
        .any(|(g, others)| refuses(by_contract, f, types, g, others))
}

fn is_refused(
    contracts: &[DeclaredContract],
    typed: &[TypedContract],
    f: &Declaration,
    types: &Option<TypedCallable>,
    line: &[u32],
    c: u32,
) -> bool
    ensures { result ≡ is_refused contracts.now typed.now f.now types.now line.now c }
{
    line.iter()
        .any(|d| *d != c && refuses_in(contracts, typed, f, types, *d))
}

/// The most derived contract of the line that has one of the name.
fn heir(contracts: &[DeclaredContract], f: &Declaration, line: &[u32]) -> Option<u32>
    ensures { result ≡ heir contracts.now f.now line.now }
{
    line.iter()
        .rev()
        .find(|d| has_rival(contracts, f, **d))
        .copied()
}

/// Whether contract `c` is the heir and doesn't derive from contract `d`.
fn is_heir_apart(lines: &[Option<Items<u32>>], h: Option<u32>, c: u32, d: u32) -> bool
    ensures { result ≡ is_heir_apart lines.now h c d }
{
    match h {
        None => false,
        Some(h) => h == c && !has(line_of(lines, c), d),
    }
}

fn are_apart(lines: &[Option<Items<u32>>], h: Option<u32>, c: u32, d: u32) -> bool
    ensures { result ≡ are_apart lines.now h c d }
{
    is_heir_apart(lines, h, c, d) || is_heir_apart(lines, h, d, c)
}

/// Whether `g` is an earlier one of the name that `f` has to override where their contracts are apart.
fn clashes(
    f: &Declaration,
    types: &Option<TypedCallable>,
    g: &Declaration,
    others: &Option<TypedCallable>,
) -> bool
    ensures { result ≡ clashes f.now types.now (g.now, others.now) }
{
    is_rival(f, g) && (stands_before(g, f) && (!is_function(f) || have_same_params(types, others)))
}

/// Whether contract `d` has such a one.
fn clashes_in(
    contracts: &[DeclaredContract],
    typed: &[TypedContract],
    f: &Declaration,
    types: &Option<TypedCallable>,
    d: u32,
) -> bool
    ensures { result ≡ clashes_in contracts.now typed.now f.now types.now d }
{
    declarations_of(contracts, d)
        .iter()
        .zip(types_of(typed, d).iter())
        .any(|(g, others)| clashes(f, types, g, others))
}

/// Whether `f` of contract `c` clashes with one of another contract of the line, of which this is the heir.
fn clashes_beside(
    contracts: &[DeclaredContract],
    typed: &[TypedContract],
    lines: &[Option<Items<u32>>],
    f: &Declaration,
    types: &Option<TypedCallable>,
    c: u32,
    h: Option<u32>,
    line: &[u32],
) -> bool
    ensures { result
        ≡ clashes_beside contracts.now typed.now lines.now f.now types.now c h line.now }
{
    line.iter().any(|d| {
        *d != c && (are_apart(lines, h, c, *d) && clashes_in(contracts, typed, f, types, *d))
    })
}

fn clashes_along(
    contracts: &[DeclaredContract],
    typed: &[TypedContract],
    lines: &[Option<Items<u32>>],
    f: &Declaration,
    types: &Option<TypedCallable>,
    c: u32,
    line: &[u32],
) -> bool
    ensures { result ≡ clashes_along contracts.now typed.now lines.now f.now types.now c line.now }
{
    let h = heir(contracts, f, line);
    has(line, c) && clashes_beside(contracts, typed, lines, f, types, c, h, line)
}

/// Whether it clashes along the line of some contract.
fn clashes_somewhere(
    contracts: &[DeclaredContract],
    typed: &[TypedContract],
    lines: &[Option<Items<u32>>],
    f: &Declaration,
    types: &Option<TypedCallable>,
    c: u32,
) -> bool
    ensures { result ≡ clashes_somewhere contracts.now typed.now lines.now f.now types.now c }
{
    lines.iter().any(|line| clashes_along(contracts, typed, lines, f, types, c, or_empty(line)))
}

fn breaks(
    contracts: &[DeclaredContract],
    typed: &[TypedContract],
    lines: &[Option<Items<u32>>],
    c: u32,
    f: &Declaration,
    types: &Option<TypedCallable>,
) -> bool
    ensures { result ≡ breaks contracts.now typed.now lines.now c f.now types.now }
{
    lacks_override(contracts, f, line_of(lines, c), c)
        || is_refused(contracts, typed, f, types, line_of(lines, c), c)
        || clashes_somewhere(contracts, typed, lines, f, types, c)
}

/// Whether the declaration of contract `c` at position `at` breaks the rule on overrides, along the line of some contract. `lines` has the
/// line of each contract, and `typed` the types of its declarations, one row for each.
pub fn breaks_override(
    contracts: &[DeclaredContract],
    typed: &[TypedContract],
    lines: &[Option<Items<u32>>],
    c: u32,
    at: usize,
) -> bool
    ensures { result ≡ breaks_override contracts.now typed.now lines.now c at }
{
    match (
        declarations_of(contracts, c).get(at),
        types_of(typed, c).get(at),
    ) {
        (Some(f), Some(types)) => breaks(contracts, typed, lines, c, f, types),
        _ => false,
    }
}
