//! Declarations of contracts.
#![tactic(auto)]

ghost use Rattle.std.specs.Prelude.{◌≡◌};
ghost use Rattle.sv_duplicate.specs.Duplicates.{are_alike, breaks, breaks_duplicate, is_constructor, is_constructor_sort, repeats, repeats_in};

use crate::line::is_met;
use crate::member::has_member_twice;
use sqlite_items::Items;
use sv_decl::{Callable, Declaration, DeclaredContract};
use sv_rival::{
    declarations_of, have_same_params, is_function, same_name, sort_of, stands_before, types_of,
};
use sv_typed::{TypedCallable, TypedContract};

fn is_constructor_sort(sort: Option<Callable>) -> bool
    ensures { result ≡ is_constructor_sort sort }
{
    matches!(sort, Some(Callable::Constructor))
}

fn is_constructor(f: &Declaration) -> bool
    ensures { result ≡ is_constructor f.now }
{
    is_constructor_sort(sort_of(&f.kind))
}

/// Whether the two have one name, or are constructors.
fn are_alike(f: &Declaration, g: &Declaration) -> bool
    ensures { result ≡ are_alike f.now g.now }
{
    same_name(f.name, g.name) || (is_constructor(f) && is_constructor(g))
}

/// Whether `g` of the same contract stands before and is alike, and the two are no overloads.
fn repeats(
    f: &Declaration,
    types: &Option<TypedCallable>,
    g: &Declaration,
    others: &Option<TypedCallable>,
) -> bool
    ensures { result ≡ repeats f.now types.now (g.now, others.now) }
{
    are_alike(f, g)
        && (stands_before(g, f)
            && (!(is_function(f) && is_function(g)) || have_same_params(types, others)))
}

fn repeats_in(
    contracts: &[DeclaredContract],
    typed: &[TypedContract],
    f: &Declaration,
    types: &Option<TypedCallable>,
    c: u32,
) -> bool
    ensures { result ≡ repeats_in contracts.now typed.now f.now types.now c }
{
    declarations_of(contracts, c)
        .iter()
        .zip(types_of(typed, c).iter())
        .any(|(g, others)| repeats(f, types, g, others))
}

fn breaks(
    contracts: &[DeclaredContract],
    typed: &[TypedContract],
    lines: &[Option<Items<u32>>],
    c: u32,
    f: &Declaration,
    types: &Option<TypedCallable>,
) -> bool
    ensures { result ≡ breaks contracts.now typed.now lines.now c f.now types.now }
{
    has_member_twice(&f.kind)
        || repeats_in(contracts, typed, f, types, c)
        || is_met(contracts, lines, f, c)
}

/// Whether the declaration of contract `c` at position `at` has a name that its scope has already: in its contract, or along the line of
/// some contract, or an enum has a member twice. `lines` has the line of each contract, and `typed` the types of its declarations, one row for each.
pub fn breaks_duplicate(
    contracts: &[DeclaredContract],
    typed: &[TypedContract],
    lines: &[Option<Items<u32>>],
    c: u32,
    at: usize,
) -> bool
    ensures { result ≡ breaks_duplicate contracts.now typed.now lines.now c at }
{
    match (
        declarations_of(contracts, c).get(at),
        types_of(typed, c).get(at),
    ) {
        (Some(f), Some(types)) => breaks(contracts, typed, lines, c, f, types),
        _ => false,
    }
}
