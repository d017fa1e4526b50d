//! Rings of a graph.
#![tactic(auto)]

ghost use Rattle.std.specs.Prelude.{◌≡◌, ◌↔◌, IsTrue, length, slice_index_or, false, IfOk};
ghost use Rattle.sv_reach.specs.Paths.{AreMarks, IsReached, IsOnRing};
ghost use Rattle.sv_reach.specs.Strips.{HasSuccessors, OffRings};

use crate::reach::reached;
use crate::strip::off_rings;
use sqlite_items::Items;
use std::alloc::{AllocError, Global};

/// What a mark says; a number without a mark has none.
fn is_marked(marks: &[bool], at: usize) -> bool
    ensures { result ≡ slice_index_or marks.now at false }
{
    match marks.get(at) {
        Some(mark) => *mark,
        None => false,
    }
}

/// Whether a node that has these successors is reached from one of them; a node that is marked as off all rings is not looked at.
fn leads_back(
    alloc: Global,
    graph: &[Items<u32>],
    off: &[bool],
    node: usize,
    next: &[u32],
) -> Result<bool, AllocError>
    requires { HasSuccessors graph.now node next.now × OffRings graph.now off.now }
    ensures { IfOk result (λ r. IsTrue r ↔ IsOnRing graph.now node) }
{
    if is_marked(off, node) {
        return Ok(false);
    }
    let met = reached(alloc, graph, next)?;
    Ok(is_marked(met.as_slice(), node))
}

/// Whether each node of a graph lies on a ring: a path of at least one edge leads from it to itself. A graph is the list of the
/// successors of each node; a successor that is no node counts for nothing.
pub fn on_a_ring(alloc: Global, graph: &[Items<u32>]) -> Result<Items<bool>, AllocError>
    ensures { IfOk result (λ marks. AreMarks (length graph.now) (IsOnRing graph.now) marks) }
{
    let off = off_rings(alloc, graph)?;
    let mut marks = Items::new(alloc);
    for next in graph {
        let mark = leads_back(alloc, graph, off.as_slice(), marks.len(), next.as_slice())?;
        marks.push(mark)?;
    }
    Ok(marks)
}
