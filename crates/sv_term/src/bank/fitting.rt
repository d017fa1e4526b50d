ghost use Rattle.std.specs.Prelude.{◌≡◌, ◌↔◌, ◌<◌, ◌≤◌, ◌&&◌, IsTrue, length};
ghost use Rattle.sv_term.specs.Sorts.{parts, is_tuple};
ghost use Rattle.sv_term.specs.Banks.{sort, parts_by, IsSort, AreSorts, IsTerm, IsNumber, IsBool, IsArray, AreKin, IsElement, FillsSort, ArePartsOf, HasPart, IsSummed, Fits};
ghost use Rattle.sv_term.specs.NodeKinds.{IsOfKind, HasKind, HasElements, HasItems, IsKnown, AreParts, IsPart, same_kind, is_arr, count_of};

use super::Bank;
use crate::node::{Node, SortId, SortNode, TermId};

/// What `fits` asks of a sort. Arrays and tuples have the number of their sort; a term that isn't in the bank has no sort.
#[derive(Clone, Copy, Drop)]
enum Kind {
    Missing,
    Num,
    Bool,
    Arr(SortId),
    Tup(SortId),
}

/// Two kinds, neither of them missing, that count as one sort.
fn same(x: Kind, y: Kind) -> bool
    ensures { result ≡ same_kind x y }
{
    match (x, y) {
        (Kind::Num, Kind::Num) => true,
        (Kind::Bool, Kind::Bool) => true,
        (Kind::Arr(s), Kind::Arr(t)) => s == t,
        (Kind::Tup(s), Kind::Tup(t)) => s == t,
        _ => false,
    }
}

/// Whether it is the kind of an array.
fn is_arr(x: Kind) -> bool
    ensures { result ≡ is_arr x }
{
    match x {
        Kind::Arr(_) => true,
        _ => false,
    }
}

fn both(x: bool, y: bool) -> bool
    ensures { result ≡ (x && y) }
{
    x && y
}

impl Bank {
    /// Whether the node may be added: exactly where its sorts and arguments are in the bank, and its tree fits. It takes no memory.
    pub fn fits(&self, node: &Node) -> bool
        ensures { IsTrue result ↔ Fits self.now node.now }
    {
        match node {
            Node::Lit(_, _) | Node::Truth(_) => true,
            Node::Var(_, sort) => self.has_sort(*sort),
            Node::Add(a, b)
            | Node::Sub(a, b)
            | Node::Mul(a, b)
            | Node::Div(a, b)
            | Node::Mod(a, b)
            | Node::Le(a, b) => self.are_numbers(*a, *b),
            Node::Wrap(_, bits, a) => self.wraps(*bits, *a),
            Node::Eq(a, b) => self.are_kin(*a, *b),
            Node::Not(p) => self.is_truth(*p),
            Node::And(p, q) | Node::Or(p, q) => self.are_truths(*p, *q),
            Node::Ite(c, a, b) => self.chooses(*c, *a, *b),
            Node::Sel(a, i) => self.selects(*a, *i),
            Node::Sto(a, i, v) => self.stores(*a, *i, *v),
            Node::Const(sort, v) => self.fills(*sort, *v),
            Node::Mix(n, a, b) => self.mixes(*n, *a, *b),
            Node::Tup(sort, args) => self.are_parts(*sort, args.as_slice()),
            Node::Get(k, a) => self.has_part(*k, *a),
            Node::Sum(a) => self.sums(*a),
        }
    }

    fn has_sort(&self, sort: SortId) -> bool
        ensures { IsTrue result ↔ IsSort self.now sort }
    {
        sort.0 < self.sorts.len()
    }

    fn has_term(&self, term: TermId) -> bool
        ensures { IsTrue result ↔ IsTerm self.now term }
    {
        term.0 < self.nodes.len()
    }

    fn kind_of_sort(&self, number: SortId) -> Kind
        requires { IsSort self.now number }
        ensures { IsOfKind self.now (sort self.now number) result }
    {
        match self.sort_node(number) {
            SortNode::Num(_) => Kind::Num,
            SortNode::Bool => Kind::Bool,
            SortNode::Arr(_) => Kind::Arr(number),
            SortNode::Tup(_) => Kind::Tup(number),
        }
    }

    fn kind(&self, term: TermId) -> Kind
        ensures { HasKind self.now term result }
    {
        if !self.has_term(term) {
            return Kind::Missing;
        }
        self.kind_of_sort(self.sort_of(term))
    }

    fn element_kind(&self, number: SortId) -> Kind
        requires { IsSort self.now number }
        ensures { HasElements self.now (sort self.now number) result }
    {
        match self.sort_node(number) {
            SortNode::Arr(element) => self.kind_of_sort(*element),
            SortNode::Num(_) => Kind::Missing,
            SortNode::Bool => Kind::Missing,
            SortNode::Tup(_) => Kind::Missing,
        }
    }

    fn items_kind(&self, x: Kind) -> Kind
        requires { IsKnown self.now x }
        ensures { HasItems self.now x result }
    {
        match x {
            Kind::Arr(number) => self.element_kind(number),
            Kind::Missing => Kind::Missing,
            Kind::Num => Kind::Missing,
            Kind::Bool => Kind::Missing,
            Kind::Tup(_) => Kind::Missing,
        }
    }

    fn is_number(&self, a: TermId) -> bool
        ensures { IsTrue result ↔ IsNumber self.now a }
    {
        let _ = &self.sorts;
        let kind = self.kind(a);
        same(kind, Kind::Num)
    }

    fn is_truth(&self, p: TermId) -> bool
        ensures { IsTrue result ↔ IsBool self.now p }
    {
        let _ = &self.sorts;
        let kind = self.kind(p);
        same(kind, Kind::Bool)
    }

    fn is_array(&self, a: TermId) -> bool
        ensures { IsTrue result ↔ IsArray self.now a }
    {
        let kind = self.kind(a);
        is_arr(kind)
    }

    fn are_kin(&self, a: TermId, b: TermId) -> bool
        ensures { IsTrue result ↔ AreKin self.now a b }
    {
        let _ = &self.sorts;
        let left = self.kind(a);
        let right = self.kind(b);
        same(left, right)
    }

    fn are_numbers(&self, a: TermId, b: TermId) -> bool
        ensures { IsTrue result ↔ (IsNumber self.now a × IsNumber self.now b) }
    {
        let left = self.is_number(a);
        let right = self.is_number(b);
        both(left, right)
    }

    fn are_truths(&self, p: TermId, q: TermId) -> bool
        ensures { IsTrue result ↔ (IsBool self.now p × IsBool self.now q) }
    {
        let left = self.is_truth(p);
        let right = self.is_truth(q);
        both(left, right)
    }

    fn wraps(&self, bits: u16, a: TermId) -> bool
        ensures { IsTrue result ↔ (IsNumber self.now a × (1 ≤ bits) × (bits ≤ 120)) }
    {
        let left = self.is_number(a);
        let right = is_width(bits);
        both(left, right)
    }

    fn chooses(&self, c: TermId, a: TermId, b: TermId) -> bool
        ensures { IsTrue result ↔ (IsBool self.now c × AreKin self.now a b) }
    {
        let left = self.is_truth(c);
        let right = self.are_kin(a, b);
        both(left, right)
    }

    fn selects(&self, a: TermId, i: TermId) -> bool
        ensures { IsTrue result ↔ (IsArray self.now a × IsNumber self.now i) }
    {
        let left = self.is_array(a);
        let right = self.is_number(i);
        both(left, right)
    }

    fn stores(&self, a: TermId, i: TermId, v: TermId) -> bool
        ensures { IsTrue result
            ↔ (IsArray self.now a × IsNumber self.now i × IsElement self.now a v) }
    {
        let _ = &self.sorts;
        let array = self.kind(a);
        let items = self.items_kind(array);
        let value = self.kind(v);
        let index = self.is_number(i);
        let alike = same(items, value);
        both(index, alike)
    }

    fn fills(&self, number: SortId, v: TermId) -> bool
        ensures { IsTrue result ↔ FillsSort self.now number v }
    {
        let _ = &self.sorts;
        if !self.has_sort(number) {
            return false;
        }
        let items = self.element_kind(number);
        let value = self.kind(v);
        same(items, value)
    }

    fn mixes(&self, n: TermId, a: TermId, b: TermId) -> bool
        ensures { IsTrue result ↔ (IsNumber self.now n × IsArray self.now a × AreKin self.now a b) }
    {
        let first = self.is_number(n);
        let second = self.is_array(a);
        let third = self.are_kin(a, b);
        let arrays = both(second, third);
        both(first, arrays)
    }

    fn sums(&self, a: TermId) -> bool
        ensures { IsTrue result ↔ IsSummed self.now a }
    {
        let _ = &self.sorts;
        let array = self.kind(a);
        let items = self.items_kind(array);
        same(items, Kind::Num)
    }

    fn has_part(&self, k: usize, a: TermId) -> bool
        ensures { IsTrue result ↔ HasPart self.now k a }
    {
        let kind = self.kind(a);
        let count = self.part_count(kind);
        k < count
    }

    /// How many parts a tuple of the kind has; 0 for another kind.
    fn part_count(&self, x: Kind) -> usize
        requires { IsKnown self.now x }
        ensures { result ≡ count_of self.now x }
    {
        match x {
            Kind::Tup(number) => self.sort_parts(number).len(),
            Kind::Missing => 0,
            Kind::Num => 0,
            Kind::Bool => 0,
            Kind::Arr(_) => 0,
        }
    }

    /// The parts of a tuple's sort; none of another.
    fn sort_parts(&self, number: SortId) -> &[SortId]
        requires { IsSort self.now number }
        ensures parts { parts (sort self.now number) ≡ parts_by (sort self.now) result.now }
        ensures within { AreSorts self.now result.now }
    {
        match self.sort_node(number) {
            SortNode::Tup(parts) => parts.as_slice(),
            SortNode::Num(_) => &[],
            SortNode::Bool => &[],
            SortNode::Arr(_) => &[],
        }
    }

    fn is_tuple(&self, number: SortId) -> bool
        requires { IsSort self.now number }
        ensures { result ≡ is_tuple (sort self.now number) }
    {
        match self.sort_node(number) {
            SortNode::Tup(_) => true,
            SortNode::Num(_) => false,
            SortNode::Bool => false,
            SortNode::Arr(_) => false,
        }
    }

    fn are_parts(&self, number: SortId, args: &[TermId]) -> bool
        ensures { IsTrue result ↔ ArePartsOf self.now number args.now }
    {
        if !self.has_sort(number) {
            return false;
        }
        let tuple = self.is_tuple(number);
        let parts = self.sort_parts(number);
        let matching = self.parts_match(parts, args);
        both(tuple, matching)
    }

    fn parts_match(&self, parts: &[SortId], args: &[TermId]) -> bool
        requires { AreSorts self.now parts.now }
        ensures { IsTrue result ↔ AreParts self.now parts.now args.now }
    {
        match parts {
            [] => args.is_empty(),
            [part, more_parts @ ..] => match args {
                [] => false,
                [arg, more_args @ ..] => {
                    let first = self.part_matches(*part, *arg);
                    let rest = self.parts_match(more_parts, more_args);
                    both(first, rest)
                }
            },
        }
    }

    fn part_matches(&self, part: SortId, arg: TermId) -> bool
        requires { IsSort self.now part }
        ensures { IsTrue result ↔ IsPart self.now part arg }
    {
        let _ = &self.sorts;
        let kind = self.kind_of_sort(part);
        let value = self.kind(arg);
        same(kind, value)
    }
}

/// The bits that a range may have.
fn is_width(bits: u16) -> bool
    ensures { IsTrue result ↔ ((1 ≤ bits) × (bits ≤ 120)) }
{
    both(1 <= bits, bits <= 120)
}
