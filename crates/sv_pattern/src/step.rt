use crate::numbers::Name;
use arrayvec::ArrayVec;

/// The sign of a premise: one of its own, or by the sign of the fact that is to follow.
#[derive(Clone, Copy, Debug, PartialEq, Eq)]
pub enum Sign {
    Plus,
    Minus,
    Same,
    Other,
}

/// What is asked of one term.
#[derive(Clone, Copy, Debug, PartialEq, Eq)]
pub enum Property {
    /// It is the literal 0.
    IsZero,
    /// It is a literal of at least 1.
    IsDivisor,
    /// It is plain.
    IsPlain,
    /// It is plain, and its elements are numbers from 0 on.
    IsSummable,
}

/// What is asked of two terms, the first and the second.
#[derive(Clone, Copy, Debug, PartialEq, Eq)]
pub enum Relation {
    /// They are one.
    IsSame,
    /// The second is a literal of at least 1, and the first the literal that is one less.
    IsOneLess,
    /// The first is the least literal of the second's sort.
    IsLeast,
    /// The first is the greatest literal of the second's sort.
    IsGreatest,
    /// The first is a constant array of the second.
    IsConst,
    /// The first is the second, wrapped.
    IsWrap,
    /// The first is a part of a tuple that is spelled out, and the second is what stands there.
    IsPart,
}

/// How many terms a pattern may name.
pub const REGISTERS: usize = 16;

/// A step of a pattern. Terms are named by numbers: 0 is the term of the fact that is to follow, and each step that finds terms gives them the next numbers.
#[derive(Clone, Copy, Debug, PartialEq, Eq)]
pub enum Step {
    /// The fact that is to follow has this sign.
    Concludes(bool),
    /// The next premise has this sign. Its term is named.
    Premise(Sign),
    /// The term is a node of that name with one argument, with two, with three. The arguments are named.
    One(usize, Name),
    Two(usize, Name),
    Three(usize, Name),
    Is(Property, usize),
    Are(Relation, usize, usize),
    /// The next premises, none, one or two, say that the second term is in the range of the first's sort.
    InRange(usize, usize),
}

/// The numbers of the terms that are named.
pub(crate) type Registers = ArrayVec<usize, REGISTERS>;
