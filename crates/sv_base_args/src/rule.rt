//! The rule, asked of arguments and of a contract.
#![tactic(auto)]

ghost use Rattle.std.specs.Prelude.{◌≡◌, slice_get};
ghost use Rattle.sv_base_args.specs.BaseArguments.{args_break, breaks_along, can_be_made, is_concrete, is_given_twice, is_missing, is_of, is_wrong_number, misses_along, misses_args, param_count, params_of, takes_other, breaks_any, misses_one_of};

use crate::given::{Sought, UsePlace, is_constructor, is_given_along, use_at};
use sqlite_items::Items;
use sv_decl::{Declaration, DeclarationKind, DeclaredContract, Given, Standing};

fn params_of(k: &DeclarationKind) -> Option<usize>
    ensures { result ≡ params_of k.now }
{
    match k {
        DeclarationKind::Callable(s) => {
            if is_constructor(s.callable) {
                Some(s.params.len())
            } else {
                None
            }
        }
        DeclarationKind::Variable {
            of_type: _,
            words: _,
            value: _,
        } => None,
        DeclarationKind::Struct(_) => None,
        DeclarationKind::Enum(_) => None,
        DeclarationKind::Event(_) => None,
        DeclarationKind::Error(_) => None,
    }
}

/// How many parameters the constructor has among the declarations of a contract.
fn param_count(list: &[Declaration]) -> usize
    ensures { result ≡ param_count list.now }
{
    for d in list {
        if let Some(count) = params_of(&d.kind) {
            return count;
        }
    }
    0
}

/// Whether a contract of this name takes another number of arguments.
fn takes_other(contracts: &[DeclaredContract], name: u32, count: usize) -> bool
    ensures { result ≡ takes_other contracts.now name count }
{
    for c in contracts {
        if c.name.position() == name && param_count(c.declarations.as_slice()) != count {
            return true;
        }
    }
    false
}

fn is_wrong_number(contracts: &[DeclaredContract], name: u32, given: &Given) -> bool
    ensures { result ≡ is_wrong_number contracts.now name given.now }
{
    takes_other(contracts, name, given.count)
}

/// Whether arguments for the same contract begin earlier along the line.
fn is_given_twice(contracts: &[DeclaredContract], line: &[u32], name: u32, given: &Given) -> bool
    ensures { result ≡ is_given_twice contracts.now line.now name given.now }
{
    let sought = Sought {
        name,
        before: Some(given.spot.span.from),
    };
    is_given_along(contracts, line, sought)
}

fn is_of(line: &[u32], c: u32) -> bool
    ensures { result ≡ is_of c line.now }
{
    line.iter().any(|d| *d == c)
}

/// Whether arguments that contract `c` gives break the rule along one line.
fn breaks_along(
    contracts: &[DeclaredContract],
    line: &Option<Items<u32>>,
    c: u32,
    name: u32,
    given: &Given,
) -> bool
    ensures { result ≡ breaks_along contracts.now c name given.now line.now }
{
    match line {
        None => false,
        Some(l) => {
            is_of(l.as_slice(), c)
                && (is_wrong_number(contracts, name, given)
                    || is_given_twice(contracts, l.as_slice(), name, given))
        }
    }
}

/// Whether they break it along one of the lines.
fn breaks_any(
    contracts: &[DeclaredContract],
    lines: &[Option<Items<u32>>],
    c: u32,
    name: u32,
    given: &Given,
) -> bool
    ensures { result ≡ breaks_any contracts.now lines.now c name given.now }
{
    for line in lines {
        if breaks_along(contracts, line, c, name, given) {
            return true;
        }
    }
    false
}

/// Whether the arguments at this place of contract `c` are of a wrong number, or given twice along a line.
pub fn args_break(
    contracts: &[DeclaredContract],
    lines: &[Option<Items<u32>>],
    c: u32,
    place: UsePlace,
) -> bool
    ensures { result ≡ args_break contracts.now lines.now c place }
{
    match use_at(contracts, c, place) {
        None => false,
        Some(u) => match &u.given {
            None => false,
            Some(given) => breaks_any(contracts, lines, c, u.name.position(), given),
        },
    }
}

fn is_concrete(standing: Standing) -> bool
    ensures { result ≡ is_concrete standing }
{
    match standing {
        Standing::Concrete => true,
        Standing::Abstract => false,
        Standing::Interface => false,
    }
}

/// Whether contract `a` of a line needs arguments, and no contract of the line gives it any.
fn is_missing(contracts: &[DeclaredContract], line: &[u32], a: u32) -> bool
    ensures { result ≡ is_missing contracts.now line.now (slice_get contracts.now a) }
{
    match contracts.get(a as usize) {
        None => false,
        Some(base) => {
            let sought = Sought {
                name: base.name.position(),
                before: None,
            };
            param_count(base.declarations.as_slice()) > 0
                && !is_given_along(contracts, line, sought)
        }
    }
}

/// Whether a contract of the line other than `c` misses its arguments.
fn misses_one_of(contracts: &[DeclaredContract], line: &[u32], c: u32) -> bool
    ensures { result ≡ misses_one_of contracts.now c line.now }
{
    for a in line {
        if *a != c && is_missing(contracts, line, *a) {
            return true;
        }
    }
    false
}

fn misses_along(contracts: &[DeclaredContract], line: &Option<Items<u32>>, c: u32) -> bool
    ensures { result ≡ misses_along contracts.now c line.now }
{
    match line {
        None => false,
        Some(l) => misses_one_of(contracts, l.as_slice(), c),
    }
}

/// Whether there is a contract of this number that is neither abstract nor an interface.
fn can_be_made(contracts: &[DeclaredContract], c: u32) -> bool
    ensures { result ≡ can_be_made (slice_get contracts.now c) }
{
    match contracts.get(c as usize) {
        None => false,
        Some(own) => is_concrete(own.standing),
    }
}

/// Whether contract `c` is neither abstract nor an interface, and a base's constructor misses arguments along its line.
pub fn misses_args(contracts: &[DeclaredContract], lines: &[Option<Items<u32>>], c: u32) -> bool
    ensures { result ≡ misses_args contracts.now lines.now c }
{
    match lines.get(c as usize) {
        None => false,
        Some(line) => can_be_made(contracts, c) && misses_along(contracts, line, c),
    }
}
