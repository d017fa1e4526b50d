//! The lists of bases of a text, as edges between names.
#![tactic(auto)]

ghost use Rattle.std.specs.Prelude.{◌≡◌, ◌++◌, IfOk, OnOk};
ghost use Rattle.sv_form_bases.specs.BaseEdges.{base_edges, item_edges, edges_of};

use crate::graph::Edge;
use sqlite_items::Items;
use std::alloc::{AllocError, Global};
use sv_ast::{Base, UnitItem};
use sv_form_sites::{bases_of, name_of};
use sv_text::Name;

/// Adds an edge from a contract's name to each of its bases.
fn add_bases(edges: &mut Items<Edge>, name: Name, bases: &[Base]) -> Result<(), AllocError>
    ensures { OnOk result (edges.new ≡ edges.old ++ base_edges name bases.now) }
{
    let from = name.position();
    for b in bases {
        let to = b.name.position();
        edges.push(Edge { from, to })?;
    }
    Ok(())
}

fn add_item(edges: &mut Items<Edge>, item: &UnitItem) -> Result<(), AllocError>
    ensures { OnOk result (edges.new ≡ edges.old ++ item_edges item.now) }
{
    match item {
        UnitItem::Contract(c) => add_bases(edges, name_of(&c.kind), bases_of(&c.kind)),
        _ => Ok(()),
    }
}

/// An edge for each base in the list of each contract.
pub fn edges_of(alloc: Global, items: &[UnitItem]) -> Result<Items<Edge>, AllocError>
    ensures { IfOk result (λ es. es ≡ edges_of items.now) }
{
    let mut edges = Items::new(alloc);
    for item in items {
        add_item(&mut edges, item)?;
    }
    Ok(edges)
}
