ghost use Rattle.std.specs.Prelude.{◌≡◌, ◌↔◌, ◌<◌, List, length, IsTrue, MatchOption};
ghost use Rattle.sv_term.specs.Sorts.{element};
ghost use Rattle.sv_term.specs.Terms.{Term, sort_of, is_plain};
ghost use Rattle.sv_term.specs.FactRules.{is_low};
ghost use Rattle.sv_term.specs.FactRuleTest.{shape_of};
ghost use Rattle.sv_log.specs.Logs.{nth_term};
ghost use Rattle.sv_pattern.specs.TermKinds.{kind_of, HasArgs, HasRange, HasNoRange, AreApart, AllFit};

use sv_term::Range;

/// A node that has no sort and no number of its own.
#[derive(Clone, Copy, Debug, PartialEq, Eq)]
pub enum Name {
    Add,
    Sub,
    Mul,
    Div,
    Mod,
    Le,
    Eq,
    Not,
    And,
    Or,
    Ite,
    Sel,
    Sto,
    Mix,
    Sum,
}

/// What a node is, as far as rules ask.
#[derive(Clone, Copy, Debug, PartialEq, Eq)]
pub enum Kind {
    /// The flag is true below 0.
    Lit(bool, u128),
    Truth(bool),
    Var,
    Wrap,
    Const,
    Tup,
    Get(usize),
    Bare(Name),
}

/// Terms by number: each number stands for a tree, and no two for one.
pub trait TermNumbers {
    ghost trees: { Self → List Term };

    fn kind(&self, n: usize) -> Kind
        requires { n < length (trees self.now) }
        ensures { result ≡ kind_of (shape_of (nth_term (trees self.now) n)) };

    /// The numbers of the arguments in order. Each is smaller than the term's own.
    fn args(&self, n: usize) -> &[usize]
        requires { n < length (trees self.now) }
        ensures { HasArgs (trees self.now) n result.now };

    /// Whether the nodes are of one name, with the same sorts and numbers; their arguments may differ.
    fn same_shape(&self, m: usize, n: usize) -> bool
        requires first { m < length (trees self.now) }
        requires second { n < length (trees self.now) }
        ensures { IsTrue result ↔ (shape_of (nth_term (trees self.now) m) ≡ shape_of (nth_term (trees self.now) n)) };

    /// Whether the terms are of one sort; ranges of numbers differ.
    fn same_sort(&self, m: usize, n: usize) -> bool
        requires first { m < length (trees self.now) }
        requires second { n < length (trees self.now) }
        ensures { IsTrue result ↔ (sort_of (nth_term (trees self.now) m) ≡ sort_of (nth_term (trees self.now) n)) };

    /// The range of a number; `None` for a term of another sort.
    fn range(&self, n: usize) -> Option<Range>
        requires { n < length (trees self.now) }
        ensures { MatchOption result (HasNoRange (nth_term (trees self.now) n)) (HasRange (nth_term (trees self.now) n)) };

    /// Whether it is an array whose elements are numbers from 0 on.
    fn has_low_elements(&self, n: usize) -> bool
        requires { n < length (trees self.now) }
        ensures { result ≡ is_low (element (sort_of (nth_term (trees self.now) n))) };

    fn is_plain(&self, n: usize) -> bool
        requires { n < length (trees self.now) }
        ensures { result ≡ is_plain (nth_term (trees self.now) n) };

    /// What always holds of the trees. It does nothing.
    fn is_sound(&self)
        ensures apart { AreApart (trees self.now) }
        ensures fit { AllFit (trees self.now) };
}
