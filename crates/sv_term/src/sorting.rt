ghost use Rattle.std.specs.Prelude.{◌≡◌, IfOk, cond};
ghost use Rattle.sv_term.specs.declared.node.SortId.{SortId};
ghost use Rattle.sv_term.specs.Sorts.{NumSort, BoolSort, Any, same_sort, element, parts, sort_at};
ghost use Rattle.sv_term.specs.Terms.{sort_of};
ghost use Rattle.sv_term.specs.BankSteps.{GivesSort, joined};
ghost use Rattle.sv_term.specs.Banks.{term, tree, IsTerm, IsArray, HasPart, Fits, Keeps, IsKind};

use crate::bank::Bank;
use crate::node::{Node, Range, SortId, SortNode, TermId};
use sv_text::NoMemory;

impl Bank {
    /// The sort of a node that fits. It may be new in the bank.
    pub(crate) fn sort_for(&mut self, node: &Node) -> Result<SortId, NoMemory>
        requires { Fits self.old node.now }
        ensures { GivesSort self.old (sort_of (tree self.old node.now)) result self.new }
    {
        match node {
            Node::Lit(_, _)
            | Node::Add(_, _)
            | Node::Sub(_, _)
            | Node::Mul(_, _)
            | Node::Div(_, _)
            | Node::Mod(_, _)
            | Node::Sum(_) => Ok(self.number_sort()?),
            Node::Truth(_)
            | Node::Le(_, _)
            | Node::Eq(_, _)
            | Node::Not(_)
            | Node::And(_, _)
            | Node::Or(_, _) => Ok(self.truth_sort()?),
            Node::Wrap(signed, bits, _) => Ok(self.sort(SortNode::Num(Range::Bits(
                *signed, *bits,
            )))?),
            Node::Var(_, sort) | Node::Const(sort, _) | Node::Tup(sort, _) => Ok(*sort),
            Node::Ite(_, a, b) => Ok(self.joined_sort(*a, *b)?),
            Node::Sel(a, _) => Ok(self.element_of(*a)),
            Node::Sto(a, _, _) | Node::Mix(_, a, _) => Ok(self.sort_of(*a)),
            Node::Get(k, a) => Ok(self.part_of(*k, *a)),
        }
    }

    fn number_sort(&mut self) -> Result<SortId, NoMemory>
        ensures kept { Keeps self.old self.new }
        ensures nodes { self.new.nodes ≡ self.old.nodes }
        ensures kind { IfOk result (λ k. IsKind self.new k (NumSort Any)) }
    {
        Ok(self.sort(SortNode::Num(Range::Any))?)
    }

    fn truth_sort(&mut self) -> Result<SortId, NoMemory>
        ensures kept { Keeps self.old self.new }
        ensures nodes { self.new.nodes ≡ self.old.nodes }
        ensures kind { IfOk result (λ k. IsKind self.new k BoolSort) }
    {
        Ok(self.sort(SortNode::Bool)?)
    }

    /// The sort of a choice: that of both terms where it is one, and else that of all numbers.
    fn joined_sort(&mut self, a: TermId, b: TermId) -> Result<SortId, NoMemory>
        requires { IsTerm self.old a × IsTerm self.old b }
        ensures { GivesSort self.old
            (joined (sort_of (term self.old a)) (sort_of (term self.old b))) result self.new }
    {
        let left = self.sort_of(a);
        if left == self.sort_of(b) {
            return Ok(left);
        }
        Ok(self.number_sort()?)
    }

    fn element_of(&self, a: TermId) -> SortId
        requires { IsArray self.now a }
        ensures { IsKind self.now result (element (sort_of (term self.now a))) }
    {
        match self.sort_node(self.sort_of(a)) {
            SortNode::Arr(element) => *element,
            _ => unreachable!(),
        }
    }

    fn part_of(&self, k: usize, a: TermId) -> SortId
        requires { HasPart self.now k a }
        ensures { IsKind self.now result (sort_at k (parts (sort_of (term self.now a)))) }
    {
        match self.sort_node(self.sort_of(a)) {
            SortNode::Tup(parts) => parts[k],
            _ => unreachable!(),
        }
    }
}
