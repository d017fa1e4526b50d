//! Declarations of contracts, and lines.
#![tactic(auto)]

ghost use Rattle.std.specs.Prelude.{◌≡◌};
ghost use Rattle.sv_rival.specs.Rivals.{declarations_of, has, has_rival, line_of, or_empty, types_of};

use crate::rival::is_rival;
use sqlite_items::Items;
use sv_decl::{Declaration, DeclaredContract};
use sv_typed::{TypedCallable, TypedContract};

/// The declarations of contract `c`; none where there is no such contract.
pub fn declarations_of(contracts: &[DeclaredContract], c: u32) -> &[Declaration]
    ensures { result.now ≡ declarations_of contracts.now c }
{
    match contracts.get(c as usize) {
        None => &[],
        Some(d) => d.declarations.as_slice(),
    }
}

/// The types of these, one row for each.
pub fn types_of(typed: &[TypedContract], c: u32) -> &[Option<TypedCallable>]
    ensures { result.now ≡ types_of typed.now c }
{
    match typed.get(c as usize) {
        None => &[],
        Some(t) => t.callables.as_slice(),
    }
}

/// Whether contract `d` has one of the sort and name of `f`.
pub fn has_rival(contracts: &[DeclaredContract], f: &Declaration, d: u32) -> bool
    ensures { result ≡ has_rival contracts.now f.now d }
{
    declarations_of(contracts, d).iter().any(|g| is_rival(f, g))
}

/// A line, or the empty list for none.
pub fn or_empty(line: &Option<Items<u32>>) -> &[u32]
    ensures { result.now ≡ or_empty line.now }
{
    match line {
        None => &[],
        Some(line) => line.as_slice(),
    }
}

/// The line of contract `c`, or the empty list where it has none.
pub fn line_of(lines: &[Option<Items<u32>>], c: u32) -> &[u32]
    ensures { result.now ≡ line_of lines.now c }
{
    match lines.get(c as usize) {
        None => &[],
        Some(line) => or_empty(line),
    }
}

/// Whether the line has contract `c`.
pub fn has(line: &[u32], c: u32) -> bool
    ensures { result ≡ has line.now c }
{
    line.iter().any(|d| *d == c)
}
