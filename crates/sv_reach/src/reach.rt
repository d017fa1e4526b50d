//! Searches of a graph.
#![tactic(auto)]

ghost use Rattle.std.specs.Prelude.{◌≡◌, [], true, false, length, slice_index_or, replicate, IfOk, OnOk};
ghost use Rattle.sv_reach.specs.Paths.{AreMarks, IsReached};
ghost use Rattle.sv_reach.specs.Searches.{entered, all_entered};

use sqlite_items::Items;
use std::alloc::{AllocError, Global};

/// Whether each node was met, and the nodes whose edges are to be followed yet.
#[derive(Drop)]
struct Search {
    met: Items<bool>,
    waiting: Items<u32>,
}

impl Search {
    /// Meets a node.
    fn enter(&mut self, node: u32) -> Result<(), AllocError>
        ensures { OnOk result (self.new ≡ entered node self.old) }
    {
        let was_met = is_met(self.met.as_slice(), node);
        if !was_met {
            self.met.set(node as usize, true);
            self.waiting.push(node)?;
        }
        Ok(())
    }

    /// Meets nodes, one after another.
    fn enter_all(&mut self, nodes: &[u32]) -> Result<(), AllocError>
        ensures { OnOk result (self.new ≡ all_entered nodes.now self.old) }
    {
        for node in nodes {
            self.enter(*node)?;
        }
        Ok(())
    }
}

/// Whether a node was met; a number that is no node counts as met.
pub(crate) fn is_met(met: &[bool], node: u32) -> bool
    ensures { result ≡ slice_index_or met.now node true }
{
    match met.get(node as usize) {
        Some(met) => *met,
        None => true,
    }
}

/// No node is met.
pub(crate) fn unmet(alloc: Global, n: usize) -> Result<Items<bool>, AllocError>
    ensures { IfOk result (λ r. r ≡ replicate n false) }
{
    Ok(Items::from_vec(vec![in alloc; false; n]?))
}

/// The successors of a node, none where it is no node.
pub(crate) fn successors(graph: &[Items<u32>], node: u32) -> &[u32]
    ensures { result.now ≡ slice_index_or graph.now node [] }
{
    match graph.get(node as usize) {
        Some(list) => list.as_slice(),
        None => &[],
    }
}

/// Whether each node of a graph is reached from one of the starts, by a path of any length, 0 included. A graph is the list of the
/// successors of each node; a successor or a start that is no node counts for nothing.
pub fn reached(
    alloc: Global,
    graph: &[Items<u32>],
    starts: &[u32],
) -> Result<Items<bool>, AllocError>
    ensures { IfOk result (λ marks. AreMarks (length graph.now) (IsReached graph.now starts.now) marks) }
{
    let mut search = Search {
        met: unmet(alloc, graph.len())?,
        waiting: Items::new(alloc),
    };
    search.enter_all(starts)?;
    'nodes: while let Some(node) = search.waiting.pop() {
        search.enter_all(successors(graph, node))?;
    }
    Ok(search.met)
}
