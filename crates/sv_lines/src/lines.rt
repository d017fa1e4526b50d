//! Lines of contracts.
#![tactic(auto)]

ghost use Rattle.std.specs.Prelude.{◌≡◌, ◌<◌, ◌≤◌, ℕ, ◌++◌, ◌∷◌, [], IfOk, OnOk, length, reverse, map, IsTrue, ◌↔◌, slice_get, slice_index_or, ◌^◌};
ghost use Rattle.sv_lines.specs.Lines.{has, in_tail, takes, pick, without, all_empty, Merged, headless, pick_from, MergesTo, Lined, to_merge, Ordered};

use sqlite_items::Items;
use std::alloc::{AllocError, Global};

/// Whether a list has a contract.
fn contains(list: &[u32], c: u32) -> bool
    ensures { result ≡ has c list.now }
{
    for x in list {
        if *x == c {
            return true;
        }
    }
    false
}

/// Whether a contract stands in a list behind its head.
fn stands_behind(list: &[u32], c: u32) -> bool
    ensures { result ≡ in_tail c list.now }
{
    match list {
        [] => false,
        [_, tail @ ..] => contains(tail, c),
    }
}

/// Whether it stands so in no list.
fn free(lists: &[Items<u32>], c: u32) -> bool
    ensures { result ≡ takes c lists.now }
{
    for list in lists {
        if stands_behind(list.as_slice(), c) {
            return false;
        }
    }
    true
}

/// The first head that stands in no tail.
fn first_free(lists: &[Items<u32>]) -> Option<u32>
    ensures { result ≡ pick lists.now }
{
    for list in lists {
        if let [head, ..] = list.as_slice() {
            if free(lists, *head) {
                return Some(*head);
            }
        }
    }
    None
}

/// Whether all are empty.
fn all_done(lists: &[Items<u32>]) -> bool
    ensures { result ≡ all_empty lists.now }
{
    for list in lists {
        if !list.is_empty() {
            return false;
        }
    }
    true
}

/// A list once a head is taken.
fn taken(alloc: Global, list: &[u32], c: u32) -> Result<Items<u32>, AllocError>
    ensures { IfOk result (λ r. r ≡ headless c list.now) }
{
    match list {
        [head, tail @ ..] if *head == c => Items::from_slice(alloc, tail),
        _ => Items::from_slice(alloc, list),
    }
}

/// All lists once a head is taken.
fn all_taken(alloc: Global, lists: &[Items<u32>], c: u32) -> Result<Items<Items<u32>>, AllocError>
    ensures { IfOk result (λ r. r ≡ without c lists.now) }
{
    let mut out = Items::new(alloc);
    for list in lists {
        out.push(taken(alloc, list.as_slice(), c)?)?;
    }
    Ok(out)
}

/// The lists merged, or None where no head can be taken.
fn merge(alloc: Global, lists: Items<Items<u32>>) -> Result<Option<Items<u32>>, AllocError>
    ensures { IfOk result (λ r. MergesTo lists r) }
{
    let mut rest = lists;
    let mut out = Items::new(alloc);
    'heads: while !all_done(rest.as_slice()) {
        match first_free(rest.as_slice()) {
            None => return Ok(None),
            Some(head) => {
                out.push(head)?;
                rest = all_taken(alloc, rest.as_slice(), head)?;
            }
        }
    }
    Ok(Some(out))
}

/// Why there are no lines.
#[derive(Debug, Drop)]
pub enum LineFault {
    /// This contract is the first that has no order.
    None(u32),
    /// Memory ran out.
    NoMemory,
}

impl From<AllocError> for LineFault {
    ghost use Rattle.sv_lines.specs.declared.lines.LineFault.TheVariants.{NoMemory};

    ghost from_gives = { λ _ e. e ≡ NoMemory };

    fn from(_: AllocError) -> LineFault {
        LineFault::NoMemory
    }
}

/// A list from its end.
fn reversed(alloc: Global, list: &[u32]) -> Result<Items<u32>, AllocError>
    ensures { IfOk result (λ r. r ≡ reverse list.now) }
{
    let items = list.iter().rev().copied().collect(alloc)?;
    Ok(Items::from_vec(items))
}

/// The lists that make the order of a contract.
fn lists_of(
    alloc: Global,
    orders: &[Items<u32>],
    own: &[u32],
) -> Result<Items<Items<u32>>, AllocError>
    ensures { IfOk result (λ r. r ≡ to_merge orders.now own.now) }
{
    let bases = reversed(alloc, own)?;
    let mut out = Items::new(alloc);
    for b in bases.as_slice() {
        out.push(order_at(alloc, orders, *b)?)?;
    }
    out.push(bases)?;
    Ok(out)
}

/// The order of a contract, empty where there is none.
fn order_at(alloc: Global, orders: &[Items<u32>], c: u32) -> Result<Items<u32>, AllocError>
    ensures { IfOk result (λ r. r ≡ slice_index_or orders.now c []) }
{
    let at = c as usize;
    if at < orders.len() {
        Items::from_slice(alloc, orders[at].as_slice())
    } else {
        Ok(Items::new(alloc))
    }
}

/// The order of contract c with these bases, which stand as in the text, behind contracts that have these orders; None where there is none.
pub fn order_of(
    alloc: Global,
    orders: &[Items<u32>],
    c: u32,
    own: &[u32],
) -> Result<Option<Items<u32>>, AllocError>
    ensures { IfOk result (λ r. Ordered orders.now c own.now r) }
{
    match merge(alloc, lists_of(alloc, orders, own)?)? {
        None => Ok(None),
        Some(rest) => {
            let mut order = Items::new(alloc);
            order.push(c)?;
            order.append(rest)?;
            Ok(Some(order))
        }
    }
}

/// Each from its end.
fn all_reversed(alloc: Global, orders: &[Items<u32>]) -> Result<Items<Items<u32>>, AllocError>
    ensures { IfOk result (λ r. r ≡ map reverse orders.now) }
{
    let mut out = Items::new(alloc);
    for order in orders {
        out.push(reversed(alloc, order.as_slice())?)?;
    }
    Ok(out)
}

/// The line of each contract, from the most basic to itself: its C3 order, reversed. A contract is known by its place
/// in `bases`, which has the bases of each as they stand in the text, the most basic first. A base that isn't an earlier
/// contract counts as one without an order of its own.
pub fn linearise(alloc: Global, bases: &[Items<u32>]) -> Result<Items<Items<u32>>, LineFault>
    requires { length bases.now < 2 ^ 32 }
    ensures { Lined bases.now result }
{
    let mut orders = Items::new(alloc);
    let mut c = 0u32;
    for own in bases {
        match order_of(alloc, orders.as_slice(), c, own.as_slice())? {
            None => return Err(LineFault::None(c)),
            Some(order) => orders.push(order)?,
        }
        c += 1;
    }
    Ok(all_reversed(alloc, orders.as_slice())?)
}
