ghost use Rattle.std.specs.Prelude.{◌≡◌, ◌↔◌, ◌∷◌, ◌++◌, [], length, slice_get, Some, IfOk, IfSome, OnOk, OnErr, IsOk, MatchOption, true};
ghost use Rattle.sv_term.specs.declared.node.TermId.{TermId};
ghost use Rattle.sv_term.specs.declared.node.SortId.{SortId};
ghost use Rattle.sv_term.specs.declared.node.Node.{Node};
ghost use Rattle.sv_term.specs.Terms.{sort_of, fits};
ghost use Rattle.sv_term.specs.BankSteps.{AddsNode, AddsSort, FindsNode, FindsSort, IsNewNode};
ghost use Rattle.sv_term.specs.Banks.{Nodes, row_of, term, sort, tree, sort_tree, IsTerm, IsSort, Fits, SortFits, Keeps, Stands, IsKind, IsPlaced, IsPlacedSort, IsNamed, AllDiffer, StandsIn};

mod fitting;

use crate::node::{Node, SortId, SortNode, TermId};
use indexmap::{IndexMap, IndexSet};
use std::alloc::Global;
use std::marker::Model;
use sv_text::NoMemory;

/// Sorts and terms by number. No two sorts of a bank are equal, and no two terms.
///
/// A contract sees the list of its sorts, as plain data, and the list of its nodes. A number stands for a tree: `term` and `sort` in `specs/Banks.antt`.
#[derive(Drop)]
pub struct Bank {
    sorts: IndexSet<SortNode>,
    // each node with the number of its sort
    nodes: IndexMap<Node, SortId>,
}

impl Model for Bank {
    ghost use Rattle.std.specs.Prelude.{map};
    ghost use Rattle.indexmap.specs.IndexMap.{keys};
    ghost use Rattle.sv_term.specs.BankSteps.{AddsNode, AddsSort, FindsNode, FindsSort, IsNewNode};
    ghost use Rattle.sv_term.specs.Banks.{Nodes, row_of, IsSound, KindsAre};

    ghost Value = { Nodes };

    ghost view = { λ b. record { sorts = map row_of b.sorts.keys; nodes = keys b.nodes } };

    ghost invariant = { λ b. IsSound (record { sorts = map row_of b.sorts.keys; nodes = keys b.nodes })
        × KindsAre (record { sorts = map row_of b.sorts.keys; nodes = keys b.nodes }) b.nodes.entries };
}

impl Bank {
    /// No sorts and no terms. It takes no memory.
    pub fn new(alloc: Global) -> Bank
        ensures sorts { result.sorts ≡ [] }
        ensures nodes { result.nodes ≡ [] }
    {
        Bank {
            sorts: IndexSet::new(alloc),
            nodes: IndexMap::new(alloc),
        }
    }

    /// A bank with the same sorts and nodes under the same numbers.
    pub fn copied(&self) -> Result<Bank, NoMemory>
        ensures { IfOk result (λ b. b ≡ self.now) }
    {
        Ok(Bank {
            sorts: self.sorts.clone()?,
            nodes: self.nodes.clone()?,
        })
    }

    /// How many terms there are.
    pub fn len(&self) -> usize
        ensures { result ≡ length self.now.nodes }
    {
        self.nodes.len()
    }

    /// The node of a sort.
    pub fn sort_node(&self, number: SortId) -> &SortNode
        requires { IsSort self.now number }
        ensures node { slice_get self.now.sorts number.0 ≡ Some (row_of result.now) }
        ensures placed { IsPlacedSort self.now number (row_of result.now) }
    {
        self.sorts.get_index(number.0).unwrap()
    }

    /// The node of a term.
    pub fn node_of(&self, number: TermId) -> &Node
        requires { IsTerm self.now number }
        ensures node { slice_get self.now.nodes number.0 ≡ Some result.now }
        ensures placed { IsPlaced self.now number result.now }
    {
        let (node, _) = self.nodes.get_index(number.0).unwrap();
        node
    }

    /// The number of the sort of a term. It is the only number of that sort.
    pub fn sort_of(&self, number: TermId) -> SortId
        requires { IsTerm self.now number }
        ensures kind { IsKind self.now result (sort_of (term self.now number)) }
        ensures only { (k : SortId) → IsKind self.now k (sort_of (term self.now number)) → k ≡ result }
    {
        self.nodes[number.0]
    }

    fn find_sort(&self, node: &SortNode) -> Option<SortId>
        ensures { FindsSort self.now (row_of node.now) result }
    {
        let number = self.sorts.get_index_of(node)?;
        Some(SortId(number))
    }

    fn find(&self, node: &Node) -> Option<TermId>
        ensures { FindsNode self.now node.now result }
    {
        let number = self.nodes.get_index_of(node)?;
        Some(TermId(number))
    }

    fn push_sort(&mut self, node: SortNode) -> Result<SortId, NoMemory>
        requires fits { SortFits self.old (row_of node) }
        requires absent { StandsIn self.old.sorts (row_of node) → ⊥ }
        ensures { AddsSort self.old (row_of node) result self.new }
    {
        let number = self.sorts.len();
        self.sorts.insert_full(node)?;
        Ok(SortId(number))
    }

    fn push(&mut self, node: Node, sort: SortId) -> Result<TermId, NoMemory>
        requires { IsNewNode self.old node sort }
        ensures { AddsNode self.old node result self.new }
    {
        let number = self.nodes.len();
        let Ok(_) = self.nodes.insert(node, sort) else {
            return Err(NoMemory);
        };
        Ok(TermId(number))
    }

    /// The number of the sort of that node: the old one where it is there, and then it takes no memory. After want of memory the bank is as before.
    pub fn sort(&mut self, node: SortNode) -> Result<SortId, NoMemory>
        requires { SortFits self.old (row_of node) }
        ensures kept { Keeps self.old self.new }
        ensures nodes { self.new.nodes ≡ self.old.nodes }
        ensures row { IfOk result (λ k. slice_get self.new.sorts k.0 ≡ Some (row_of node)) }
        ensures kind { IfOk result (λ k. IsKind self.new k (sort_tree self.old (row_of node))) }
        ensures there { StandsIn self.old.sorts (row_of node) → IsOk result × (self.new ≡ self.old) }
        ensures last { (StandsIn self.old.sorts (row_of node) → ⊥) → OnOk result (self.new.sorts ≡ self.old.sorts ++ row_of node ∷ []) }
        ensures err { OnErr result (self.new ≡ self.old) }
    {
        if let Some(number) = self.find_sort(&node) {
            return Ok(number);
        }
        Ok(self.push_sort(node)?)
    }

    /// The number of the term of that node: the old one where it is there, and then it takes no memory.
    /// After want of memory the bank keeps its terms, and may have gained the node's sort.
    pub fn add(&mut self, node: Node) -> Result<TermId, NoMemory>
        requires { Fits self.old node }
        ensures kept { Keeps self.old self.new }
        ensures node { IfOk result (λ k. slice_get self.new.nodes k.0 ≡ Some node) }
        ensures stands { IfOk result (λ k. Stands self.new k (tree self.old node)) }
        ensures there { StandsIn self.old.nodes node → IsOk result × (self.new ≡ self.old) }
        ensures last { (StandsIn self.old.nodes node → ⊥) → OnOk result (self.new.nodes ≡ self.old.nodes ++ node ∷ []) }
        ensures err { OnErr result (self.new.nodes ≡ self.old.nodes) }
    {
        if let Some(number) = self.find(&node) {
            return Ok(number);
        }
        let sort = self.sort_for(&node)?;
        Ok(self.push(node, sort)?)
    }

    /// What holds of every bank: each term fits, a node may be added exactly where its sorts and arguments are there and its tree fits,
    /// no two sorts and no two nodes are equal, and no two numbers stand for one sort or one term. It does nothing.
    pub fn is_sound(&self)
        ensures terms { (k : TermId) → IsTerm self.now k → fits (term self.now k) ≡ true }
        ensures nodes { (x : Node) → Fits self.now x ↔ (IsNamed self.now x × (fits (tree self.now x) ≡ true)) }
        ensures sorts_differ { AllDiffer self.now.sorts }
        ensures nodes_differ { AllDiffer self.now.nodes }
        ensures sort_number { (j k : SortId) → IsSort self.now j → IsSort self.now k → sort self.now j ≡ sort self.now k → j ≡ k }
        ensures term_number { (j k : TermId) → IsTerm self.now j → IsTerm self.now k → term self.now j ≡ term self.now k → j ≡ k }
    {
        let _ = &self.nodes;
    }
}
