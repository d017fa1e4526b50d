//! The graph of a list of edges, and what a node of it leads to.
#![tactic(auto)]

ghost use Rattle.std.specs.Prelude.{◌≡◌, ◌↔◌, IsTrue, [], false, slice_index_or, replicate, IfOk, OnOk};
ghost use Rattle.sv_form_bases.specs.EdgeGraphs.{IsGraphOf, Leads, room_from, linked, linked_all};

use sqlite_items::Items;
use std::alloc::{AllocError, Global};
use sv_reach::reached;

/// One node names another.
#[derive(Clone, Copy, Debug, PartialEq, Eq)]
pub struct Edge {
    pub from: u32,
    pub to: u32,
}

/// A number that is greater than both ends of each edge.
fn room(edges: &[Edge]) -> usize
    ensures { result ≡ room_from 0 edges.now }
{
    let mut room = 0usize;
    for e in edges {
        room = room.max(e.from as usize + 1).max(e.to as usize + 1);
    }
    room
}

/// So many nodes without edges.
fn unlinked(alloc: Global, n: usize) -> Result<Vec<Items<u32>>, AllocError>
    ensures { IfOk result (λ g. g.items ≡ replicate n []) }
{
    let mut graph = Vec::new(alloc);
    for _ in 0..n {
        graph.push(Items::new(alloc))?;
    }
    Ok(graph)
}

/// Adds an edge, if its first end is a node.
fn link(graph: &mut Vec<Items<u32>>, e: Edge) -> Result<(), AllocError>
    ensures { OnOk result (graph.new.items ≡ linked e graph.old.items) }
{
    match graph.get_mut(e.from as usize) {
        None => Ok(()),
        Some(row) => row.push(e.to),
    }
}

/// Adds edges, one after another.
fn link_all(graph: &mut Vec<Items<u32>>, edges: &[Edge]) -> Result<(), AllocError>
    ensures { OnOk result (graph.new.items ≡ linked_all edges.now graph.old.items) }
{
    for e in edges {
        link(graph, *e)?;
    }
    Ok(())
}

/// The graph of a list of edges: of each node the nodes that its edges end at, in order.
pub fn graph_of(alloc: Global, edges: &[Edge]) -> Result<Vec<Items<u32>>, AllocError>
    ensures { IfOk result (λ g. IsGraphOf edges.now g.items) }
{
    let mut graph = unlinked(alloc, room(edges))?;
    link_all(&mut graph, edges)?;
    Ok(graph)
}

/// The nodes that the edges of a node end at, none where it is no node.
fn targets(graph: &[Items<u32>], node: u32) -> &[u32]
    ensures { result.now ≡ slice_index_or graph.now node [] }
{
    match graph.get(node as usize) {
        Some(list) => list.as_slice(),
        None => &[],
    }
}

/// What a mark says; a number without a mark has none.
fn is_marked(marks: &[bool], node: u32) -> bool
    ensures { result ≡ slice_index_or marks.now node false }
{
    match marks.get(node as usize) {
        Some(mark) => *mark,
        None => false,
    }
}

/// Whether a path of at least one edge leads from a node to another one.
pub fn leads(alloc: Global, graph: &[Items<u32>], from: u32, to: u32) -> Result<bool, AllocError>
    ensures { IfOk result (λ r. IsTrue r ↔ Leads graph.now from to) }
{
    let met = reached(alloc, graph, targets(graph, from))?;
    Ok(is_marked(met.as_slice(), to))
}
