//! Orders of contracts, each by those before it.
#![tactic(auto)]

ghost use Rattle.std.specs.Prelude.{◌≡◌, ◌<◌, ◌^◌, IfOk, length, map, reverse};
ghost use Rattle.std.specs.Option.{option_map};
ghost use Rattle.sv_orders.specs.LineTables.{has_order, all_have, or_empty, OrderedBehind, EachLined};

use sqlite_items::Items;
use std::alloc::{AllocError, Global};
use sv_lines::order_of;

/// Whether a contract is one of these and has an order.
fn has_order(orders: &[Option<Items<u32>>], c: u32) -> bool
    ensures { result ≡ has_order orders.now c }
{
    match orders.get(c as usize) {
        Some(order) => order.is_some(),
        None => false,
    }
}

/// Whether each base has an order.
fn all_have(orders: &[Option<Items<u32>>], bases: &[u32]) -> bool
    ensures { result ≡ all_have orders.now bases.now }
{
    for b in bases {
        if !has_order(orders, *b) {
            return false;
        }
    }
    true
}

/// A copy of an order, empty where there is none.
fn or_empty(alloc: Global, order: &Option<Items<u32>>) -> Result<Items<u32>, AllocError>
    ensures { IfOk result (λ r. r ≡ or_empty order.now) }
{
    match order {
        Some(order) => Items::from_slice(alloc, order.as_slice()),
        None => Ok(Items::new(alloc)),
    }
}

/// The order of contract c behind contracts that have these; `known` has them with the empty list for none.
fn order_behind(
    alloc: Global,
    orders: &[Option<Items<u32>>],
    known: &[Items<u32>],
    c: u32,
    own: &[u32],
) -> Result<Option<Items<u32>>, AllocError>
    requires { known.now ≡ map or_empty orders.now }
    ensures { IfOk result (λ r. OrderedBehind orders.now c own.now r) }
{
    if all_have(orders, own) {
        order_of(alloc, known, c, own)
    } else {
        Ok(None)
    }
}

/// The line of an order.
fn line_of(alloc: Global, order: &Option<Items<u32>>) -> Result<Option<Items<u32>>, AllocError>
    ensures { IfOk result (λ r. r ≡ option_map reverse order.now) }
{
    match order {
        Some(order) => Ok(Some(reversed(alloc, order.as_slice())?)),
        None => Ok(None),
    }
}

/// A list from its end.
fn reversed(alloc: Global, list: &[u32]) -> Result<Items<u32>, AllocError>
    ensures { IfOk result (λ r. r ≡ reverse list.now) }
{
    let items = list.iter().rev().copied().collect(alloc)?;
    Ok(Items::from_vec(items))
}

/// The line of each.
fn lines_of(
    alloc: Global,
    orders: &[Option<Items<u32>>],
) -> Result<Items<Option<Items<u32>>>, AllocError>
    ensures { IfOk result (λ r. r ≡ map (option_map reverse) orders.now) }
{
    let mut out = Items::new(alloc);
    for order in orders {
        out.push(line_of(alloc, order)?)?;
    }
    Ok(out)
}

/// The line of each contract, from the most basic to itself, or None where it has no order: where one of its bases is no earlier contract
/// with an order, or where the orders of its bases don't merge. A contract is known by its place in `bases`, which has the bases of each as they stand
/// in the text, the most basic first.
pub fn each_line(
    alloc: Global,
    bases: &[Items<u32>],
) -> Result<Items<Option<Items<u32>>>, AllocError>
    requires { length bases.now < 2 ^ 32 }
    ensures { IfOk result (λ lines. EachLined bases.now lines) }
{
    let mut orders = Items::new(alloc);
    let mut known = Items::new(alloc);
    let mut c = 0u32;
    for own in bases {
        let order = order_behind(
            alloc,
            orders.as_slice(),
            known.as_slice(),
            c,
            own.as_slice(),
        )?;
        known.push(or_empty(alloc, &order)?)?;
        orders.push(order)?;
        c += 1;
    }
    lines_of(alloc, orders.as_slice())
}
