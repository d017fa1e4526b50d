ghost use Rattle.std.specs.Prelude.{◌≡◌};
ghost use Rattle.std.specs.Cmp.{partial_equiv_from_equiv};
ghost use Rattle.sv_term.specs.NodeKeys.{key_of, tuple_args, same_node, node_equiv, hashed, hashed_alike};

use crate::args::Args;
use std::alloc::AllocError;
use std::hash::{Hash, Hasher};

/// The number of a sort in its bank.
#[derive(Clone, Copy, Debug, PartialEq, Eq, Hash, Drop)]
pub struct SortId(pub usize);

/// The number of a term in its bank.
#[derive(Clone, Copy, Debug, Default, PartialEq, Eq, Hash, Drop)]
pub struct TermId(pub usize);

/// Which whole numbers a sort has.
#[derive(Clone, Copy, Debug, PartialEq, Eq, Hash, Drop)]
pub enum Range {
    /// Every whole number.
    Any,
    /// Those from 0 on.
    Low,
    /// Those of a type of so many bits, from 1 to 120; signed, in two's complement, or not.
    Bits(bool, u16),
}

/// A sort, by the numbers of its parts.
#[derive(Clone, PartialEq, Eq, Hash, Drop)]
pub enum SortNode {
    Num(Range),
    Bool,
    /// An array with whole numbers as indexes.
    Arr(SortId),
    Tup(Vec<SortId>),
}

/// A term, by the numbers of its parts. It is compared, hashed and cloned below, since what a derive writes over so many variants is dear to prove.
#[derive(Drop)]
pub enum Node {
    /// A number, negative where the flag says so.
    Lit(bool, u128),
    Truth(bool),
    /// A variable: it is named by its number and its sort together.
    Var(usize, SortId),
    Add(TermId, TermId),
    Sub(TermId, TermId),
    Mul(TermId, TermId),
    /// The quotient toward zero; 0 where the divisor is 0.
    Div(TermId, TermId),
    /// The remainder of that division, which has the sign of the dividend; 0 where the divisor is 0.
    Mod(TermId, TermId),
    /// The number of the range that equals the term modulo 2 to the number of bits.
    Wrap(bool, u16, TermId),
    Le(TermId, TermId),
    Eq(TermId, TermId),
    Not(TermId),
    And(TermId, TermId),
    Or(TermId, TermId),
    Ite(TermId, TermId, TermId),
    /// The entry of an array at an index.
    Sel(TermId, TermId),
    /// An array with one entry written.
    Sto(TermId, TermId, TermId),
    /// The array of a sort that has the term everywhere.
    Const(SortId, TermId),
    /// The first array at the indexes from 0 up to the number, the second at all others.
    Mix(TermId, TermId, TermId),
    Tup(SortId, Args),
    /// A part of a tuple, counted from 0.
    Get(usize, TermId),
    /// The sum of an array whose default is 0; 0 where it is another.
    Sum(TermId),
}

impl Node {
    /// What tells nodes apart, but for the arguments of a tuple: the kind, and up to three numbers.
    fn key(&self) -> [u128; 4]
        ensures { result ≡ key_of self.now }
    {
        match self {
            Node::Lit(negative, m) => [0, *negative as u128, *m, 0],
            Node::Truth(b) => [1, *b as u128, 0, 0],
            Node::Var(x, sort) => [2, *x as u128, sort.0 as u128, 0],
            Node::Add(a, b) => [3, a.0 as u128, b.0 as u128, 0],
            Node::Sub(a, b) => [4, a.0 as u128, b.0 as u128, 0],
            Node::Mul(a, b) => [5, a.0 as u128, b.0 as u128, 0],
            Node::Div(a, b) => [6, a.0 as u128, b.0 as u128, 0],
            Node::Mod(a, b) => [7, a.0 as u128, b.0 as u128, 0],
            Node::Wrap(signed, bits, a) => [8, *signed as u128, *bits as u128, a.0 as u128],
            Node::Le(a, b) => [9, a.0 as u128, b.0 as u128, 0],
            Node::Eq(a, b) => [10, a.0 as u128, b.0 as u128, 0],
            Node::Not(p) => [11, p.0 as u128, 0, 0],
            Node::And(p, q) => [12, p.0 as u128, q.0 as u128, 0],
            Node::Or(p, q) => [13, p.0 as u128, q.0 as u128, 0],
            Node::Ite(c, a, b) => [14, c.0 as u128, a.0 as u128, b.0 as u128],
            Node::Sel(a, i) => [15, a.0 as u128, i.0 as u128, 0],
            Node::Sto(a, i, v) => [16, a.0 as u128, i.0 as u128, v.0 as u128],
            Node::Const(sort, v) => [17, sort.0 as u128, v.0 as u128, 0],
            Node::Mix(k, a, b) => [18, k.0 as u128, a.0 as u128, b.0 as u128],
            Node::Tup(sort, _) => [19, sort.0 as u128, 0, 0],
            Node::Get(k, a) => [20, *k as u128, a.0 as u128, 0],
            Node::Sum(a) => [21, a.0 as u128, 0, 0],
        }
    }

    /// The arguments of a tuple; none of another node.
    fn tuple_args(&self) -> &[TermId]
        ensures { result.now ≡ tuple_args self.now }
    {
        match self {
            Node::Tup(_, args) => args.as_slice(),
            _ => &[],
        }
    }
}

impl PartialEq for Node {
    ghost eq = { same_node };

    ghost laws = { partial_equiv_from_equiv node_equiv };

    fn eq(&self, other: &Self) -> bool {
        self.key() == other.key() && self.tuple_args() == other.tuple_args()
    }
}

impl Eq for Node {
    ghost laws = { node_equiv };
}

impl Hash for Node {
    ghost hash_input = { hashed };

    ghost respects_eq = { hashed_alike.fed };

    fn hash<H: Hasher>(&self, state: &mut H) {
        self.key().hash(state);
        self.tuple_args().hash(state);
    }
}

impl Clone for Node {
    ghost is_clone = { λ a b. b ≡ a };

    fn clone(&self) -> Result<Node, AllocError> {
        Ok(match self {
            Node::Lit(negative, m) => Node::Lit(*negative, *m),
            Node::Truth(b) => Node::Truth(*b),
            Node::Var(x, sort) => Node::Var(*x, *sort),
            Node::Add(a, b) => Node::Add(*a, *b),
            Node::Sub(a, b) => Node::Sub(*a, *b),
            Node::Mul(a, b) => Node::Mul(*a, *b),
            Node::Div(a, b) => Node::Div(*a, *b),
            Node::Mod(a, b) => Node::Mod(*a, *b),
            Node::Wrap(signed, bits, a) => Node::Wrap(*signed, *bits, *a),
            Node::Le(a, b) => Node::Le(*a, *b),
            Node::Eq(a, b) => Node::Eq(*a, *b),
            Node::Not(p) => Node::Not(*p),
            Node::And(p, q) => Node::And(*p, *q),
            Node::Or(p, q) => Node::Or(*p, *q),
            Node::Ite(c, a, b) => Node::Ite(*c, *a, *b),
            Node::Sel(a, i) => Node::Sel(*a, *i),
            Node::Sto(a, i, v) => Node::Sto(*a, *i, *v),
            Node::Const(sort, v) => Node::Const(*sort, *v),
            Node::Mix(k, a, b) => Node::Mix(*k, *a, *b),
            Node::Tup(sort, args) => Node::Tup(*sort, args.clone()?),
            Node::Get(k, a) => Node::Get(*k, *a),
            Node::Sum(a) => Node::Sum(*a),
        })
    }
}
