//! Nodes that lead to no ring.
#![tactic(auto)]

ghost use Rattle.std.specs.Prelude.{◌≡◌, ◌+◌, ◌≤◌, length, slice_index_or, true, IfOk, OnOk};
ghost use Rattle.std.specs.List.{list_all};
ghost use Rattle.sv_reach.specs.Strips.{OffRings, left, to_do};

use crate::reach::{is_met, successors, unmet};
use sqlite_items::Items;
use std::alloc::{AllocError, Global};

/// A node is entered, and left when all that it leads to was entered and left.
#[derive(Clone, Copy)]
enum Step {
    Enter(u32),
    Leave(u32),
}

/// Whether each node was entered, and the steps that wait, the next one last.
#[derive(Drop)]
struct Walk {
    met: Items<bool>,
    steps: Items<Step>,
}

impl Walk {
    /// Enters a node, unless it was entered. What is owed for it pays for its steps.
    fn enter(&mut self, graph: &[Items<u32>], node: u32) -> Result<(), AllocError>
        ensures { OnOk result (to_do graph.now self.new ≤ to_do graph.now self.old) }
    {
        if !is_met(self.met.as_slice(), node) {
            self.met.set(node as usize, true);
            self.steps.push(Step::Leave(node))?;
            enter_later(&mut self.steps, successors(graph, node))?;
        }
        Ok(())
    }
}

/// Nodes are to be entered.
fn enter_later(steps: &mut Items<Step>, nodes: &[u32]) -> Result<(), AllocError>
    ensures { OnOk result (length steps.new ≡ length steps.old + length nodes.now) }
{
    for node in nodes {
        steps.push(Step::Enter(*node))?;
    }
    Ok(())
}

/// All nodes are to be entered.
fn all_entered_later(alloc: Global, n: usize) -> Result<Items<Step>, AllocError> {
    let mut steps = Items::new(alloc);
    for node in 0..n {
        if let Ok(node) = u32::try_from(node) {
            steps.push(Step::Enter(node))?;
        }
    }
    Ok(steps)
}

/// Whether all of these nodes are marked; a number that is no node counts as marked.
fn are_met(met: &[bool], nodes: &[u32]) -> bool
    ensures { result ≡ list_all (λ b. slice_index_or met.now b true) nodes.now }
{
    nodes.iter().all(|node| is_met(met, *node))
}

/// Strips a node whose successors are stripped.
fn leave(graph: &[Items<u32>], node: u32, off: &mut Items<bool>)
    ensures { off.new ≡ left graph.now node off.old }
{
    if !is_met(off.as_slice(), node) && are_met(off.as_slice(), successors(graph, node)) {
        off.set(node as usize, true);
    }
}

/// Marks of nodes that are on no ring. One walk that leaves a node behind all that it leads to strips each node that leads to no ring.
pub(crate) fn off_rings(alloc: Global, graph: &[Items<u32>]) -> Result<Items<bool>, AllocError>
    ensures { IfOk result (OffRings graph.now) }
{
    let mut walk = Walk {
        met: unmet(alloc, graph.len())?,
        steps: all_entered_later(alloc, graph.len())?,
    };
    let mut off = unmet(alloc, graph.len())?;
    'steps: while let Some(step) = walk.steps.pop() {
        match step {
            Step::Enter(node) => walk.enter(graph, node)?,
            Step::Leave(node) => leave(graph, node, &mut off),
        }
    }
    Ok(off)
}
