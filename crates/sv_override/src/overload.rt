//! The rule on overloads.
#![tactic(auto)]

ghost use Rattle.std.specs.Prelude.{◌≡◌};
ghost use Rattle.sv_override.specs.Overloads.{breaks_overload, is_overload, overloads, overloads_along, overloads_in, overloads_somewhere, overloads_within};

use sqlite_items::Items;
use sv_decl::{Declaration, DeclaredContract};
use sv_rival::{
    declarations_of, has, have_same_params, is_function, is_rival, or_empty, stands_before,
    types_of,
};
use sv_typed::{TypedCallable, TypedContract};

/// Whether `g` is an earlier function of the name with other parameters.
fn is_overload(
    f: &Declaration,
    types: &Option<TypedCallable>,
    g: &Declaration,
    others: &Option<TypedCallable>,
) -> bool
    ensures { result ≡ is_overload f.now types.now (g.now, others.now) }
{
    is_rival(f, g) && (stands_before(g, f) && !have_same_params(types, others))
}

/// Whether contract `d` has such a function.
fn overloads_in(
    contracts: &[DeclaredContract],
    typed: &[TypedContract],
    f: &Declaration,
    types: &Option<TypedCallable>,
    d: u32,
) -> bool
    ensures { result ≡ overloads_in contracts.now typed.now f.now types.now d }
{
    declarations_of(contracts, d)
        .iter()
        .zip(types_of(typed, d).iter())
        .any(|(g, others)| is_overload(f, types, g, others))
}

/// Whether some contract of the line has such a function.
fn overloads_within(
    contracts: &[DeclaredContract],
    typed: &[TypedContract],
    f: &Declaration,
    types: &Option<TypedCallable>,
    line: &[u32],
) -> bool
    ensures { result ≡ overloads_within contracts.now typed.now f.now types.now line.now }
{
    line.iter()
        .any(|d| overloads_in(contracts, typed, f, types, *d))
}

fn overloads_along(
    contracts: &[DeclaredContract],
    typed: &[TypedContract],
    f: &Declaration,
    types: &Option<TypedCallable>,
    c: u32,
    line: &[u32],
) -> bool
    ensures { result ≡ overloads_along contracts.now typed.now f.now types.now c line.now }
{
    has(line, c) && overloads_within(contracts, typed, f, types, line)
}

/// Whether contract `c` is in the line of a contract where some contract has such a function.
fn overloads_somewhere(
    contracts: &[DeclaredContract],
    typed: &[TypedContract],
    lines: &[Option<Items<u32>>],
    f: &Declaration,
    types: &Option<TypedCallable>,
    c: u32,
) -> bool
    ensures { result ≡ overloads_somewhere contracts.now typed.now lines.now f.now types.now c }
{
    lines.iter().any(|line| overloads_along(contracts, typed, f, types, c, or_empty(line)))
}

fn overloads(
    contracts: &[DeclaredContract],
    typed: &[TypedContract],
    lines: &[Option<Items<u32>>],
    c: u32,
    f: &Declaration,
    types: &Option<TypedCallable>,
) -> bool
    ensures { result ≡ overloads contracts.now typed.now lines.now c f.now types.now }
{
    is_function(f) && overloads_somewhere(contracts, typed, lines, f, types, c)
}

/// Whether the declaration of contract `c` at position `at` breaks the rule on overloads, in the line of some contract. `lines` has the
/// line of each contract, and `typed` the types of its declarations, one row for each.
pub fn breaks_overload(
    contracts: &[DeclaredContract],
    typed: &[TypedContract],
    lines: &[Option<Items<u32>>],
    c: u32,
    at: usize,
) -> bool
    ensures { result ≡ breaks_overload contracts.now typed.now lines.now c at }
{
    match (
        declarations_of(contracts, c).get(at),
        types_of(typed, c).get(at),
    ) {
        (Some(f), Some(types)) => overloads(contracts, typed, lines, c, f, types),
        _ => false,
    }
}
