//! Bases of a contract, direct and indirect.
#![tactic(auto)]

ghost use Rattle.std.specs.Prelude.{◌≡◌, IfOk};
ghost use Rattle.sv_form_book.specs.FormRules.{is_base_of};

use crate::edges::edges_of;
use crate::graph::{graph_of, leads};
use sqlite_items::Items;
use std::alloc::Global;
use std::marker::Model;
use sv_ast::UnitItem;
use sv_text::{Name, NoMemory};

/// The bases that the contracts of a text name. A contract sees what stands in the text.
#[derive(Drop)]
pub struct Bases<'a> {
    items: &'a [UnitItem],
    graph: Vec<Items<u32>>,
}

impl<'a> Model for Bases<'a> {
    ghost use Rattle.std.specs.Prelude.{List};
    ghost use Rattle.sv_ast.specs.declared.unit.UnitItem.{UnitItem as Item};
    ghost use Rattle.sv_form_bases.specs.EdgeGraphs.{IsGraphOf};
    ghost use Rattle.sv_form_bases.specs.BaseEdges.{edges_of as edges_in};
    ghost use Rattle.std.specs.Coded.{codes};
    ghost use Rattle.sv_ast.specs.contracts.unit.UnitItem as unit_item;

    ghost Value = { List Item };

    ghost coded = { Prim.hlevel (codes, unit_item.the_row.coded) };

    ghost view = { λ b. b.items.now };

    ghost invariant = { λ b. IsGraphOf (edges_in b.items.now) b.graph.items };
}

impl<'a> Bases<'a> {
    /// Reads who names whom as a base.
    pub fn new(alloc: Global, items: &'a [UnitItem]) -> Result<Bases<'a>, NoMemory>
        ensures { IfOk result (λ b. b ≡ items.now) }
    {
        let edges = edges_of(alloc, items)?;
        let graph = graph_of(alloc, edges.as_slice())?;
        Ok(Bases { items, graph })
    }

    /// What stands in the text.
    pub fn items(&self) -> &'a [UnitItem]
        ensures { result.now ≡ self.now }
    {
        self.items
    }

    /// Whether a contract, if there is one around, has a base, direct or indirect.
    pub fn has(&self, alloc: Global, contract: Option<Name>, base: Name) -> Result<bool, NoMemory>
        ensures { IfOk result (λ r. r ≡ is_base_of self.now contract base) }
    {
        match contract {
            None => Ok(false),
            Some(c) => {
                let graph = self.graph.as_slice();
                Ok(leads(alloc, graph, c.position(), base.position())?)
            }
        }
    }
}
