ghost use Rattle.std.specs.Prelude.{◌≡◌, ◌↔◌, ◌<◌, ◌≤◌, false, length, IsTrue, MatchOption};
ghost use Rattle.sv_term.specs.Terms.{Lit};
ghost use Rattle.sv_log.specs.Logs.{nth_term};
ghost use Rattle.sv_pattern.specs.Patterns.{HasProperty};
ghost use Rattle.sv_pattern.specs.NodeOpenings.{AreThere, RelatedAt, HasArgument, IsArgument, HasOnly, HasNotOne};
ghost use Rattle.sv_pattern.specs.declared.step.Property.TheVariants.{IsDivisor};
ghost use Rattle.sv_pattern.specs.declared.step.Relation.TheVariants.{IsSame, IsOneLess, IsLeast, IsGreatest, IsPart};

use crate::bounds::{greatest, least};
use crate::numbers::{Kind, TermNumbers};
use crate::opening::{is_literal, is_of_kind, number_at};
use crate::step::{Property, Relation};

pub(crate) fn has_property<T: TermNumbers>(terms: &T, property: Property, n: usize) -> bool
    requires { n < length (T.trees terms.now) }
    ensures { IsTrue result ↔ HasProperty property (nth_term (T.trees terms.now) n) }
{
    match property {
        Property::IsZero => is_literal(terms, n, false, 0),
        Property::IsDivisor => divisor(terms, n).is_some(),
        Property::IsPlain => terms.is_plain(n),
        Property::IsSummable => terms.is_plain(n) && terms.has_low_elements(n),
    }
}

pub(crate) fn are_related<T: TermNumbers>(terms: &T, relation: Relation, m: usize, n: usize) -> bool
    requires { AreThere (T.trees terms.now) m n }
    ensures { IsTrue result ↔ RelatedAt (T.trees terms.now) relation m n }
{
    match relation {
        Relation::IsSame => is_same(terms, m, n),
        Relation::IsOneLess => is_one_less(terms, m, n),
        Relation::IsLeast => is_least(terms, m, n),
        Relation::IsGreatest => is_greatest(terms, m, n),
        Relation::IsConst => terms.kind(m) == Kind::Const && has_one(terms, m, n),
        Relation::IsWrap => terms.kind(m) == Kind::Wrap && has_one(terms, m, n),
        Relation::IsPart => is_part(terms, m, n),
    }
}

// The number of a literal of at least 1.
fn divisor<T: TermNumbers>(terms: &T, n: usize) -> Option<u128>
    requires { n < length (T.trees terms.now) }
    ensures { MatchOption result (HasProperty IsDivisor (nth_term (T.trees terms.now) n) → ⊥)
        (λ d. (nth_term (T.trees terms.now) n ≡ Lit false d) × (1 ≤ d)) }
{
    match terms.kind(n) {
        Kind::Lit(false, d) if d >= 1 && terms.args(n).is_empty() => Some(d),
        _ => None,
    }
}

fn is_same<T: TermNumbers>(terms: &T, m: usize, n: usize) -> bool
    requires { AreThere (T.trees terms.now) m n }
    ensures { IsTrue result ↔ RelatedAt (T.trees terms.now) IsSame m n }
{
    terms.is_sound();
    m == n
}

fn is_one_less<T: TermNumbers>(terms: &T, m: usize, n: usize) -> bool
    requires { AreThere (T.trees terms.now) m n }
    ensures { IsTrue result ↔ RelatedAt (T.trees terms.now) IsOneLess m n }
{
    match divisor(terms, n) {
        Some(d) => is_literal(terms, m, false, d - 1),
        None => false,
    }
}

fn is_least<T: TermNumbers>(terms: &T, m: usize, n: usize) -> bool
    requires { AreThere (T.trees terms.now) m n }
    ensures { IsTrue result ↔ RelatedAt (T.trees terms.now) IsLeast m n }
{
    let Some(range) = terms.range(n) else {
        return false;
    };
    match least(range) {
        Some((negative, number)) => is_literal(terms, m, negative, number),
        None => false,
    }
}

fn is_greatest<T: TermNumbers>(terms: &T, m: usize, n: usize) -> bool
    requires { AreThere (T.trees terms.now) m n }
    ensures { IsTrue result ↔ RelatedAt (T.trees terms.now) IsGreatest m n }
{
    let Some(range) = terms.range(n) else {
        return false;
    };
    match greatest(range) {
        Some(number) => is_literal(terms, m, false, number),
        None => false,
    }
}

// Whether the second term is the only argument of the first.
fn has_one<T: TermNumbers>(terms: &T, m: usize, n: usize) -> bool
    requires { AreThere (T.trees terms.now) m n }
    ensures { IsTrue result ↔ HasArgument (T.trees terms.now) m n }
{
    terms.is_sound();
    match terms.args(m) {
        [a] => *a == n,
        _ => false,
    }
}

fn is_part<T: TermNumbers>(terms: &T, m: usize, n: usize) -> bool
    requires { AreThere (T.trees terms.now) m n }
    ensures { IsTrue result ↔ RelatedAt (T.trees terms.now) IsPart m n }
{
    terms.is_sound();
    let Kind::Get(k) = terms.kind(m) else {
        return false;
    };
    let Some(t) = only_argument(terms, m) else {
        return false;
    };
    is_of_kind(terms, t, Kind::Tup) && is_argument(terms, t, k, n)
}

// The argument of a node with one.
fn only_argument<T: TermNumbers>(terms: &T, m: usize) -> Option<usize>
    requires { m < length (T.trees terms.now) }
    ensures { MatchOption result (HasNotOne (nth_term (T.trees terms.now) m))
        (λ t. HasOnly (T.trees terms.now) m t) }
{
    let args = terms.args(m);
    if args.len() == 1 {
        number_at(args, 0)
    } else {
        None
    }
}

// Whether the argument at the place `k` of the term `t` is `n`.
fn is_argument<T: TermNumbers>(terms: &T, t: usize, k: usize, n: usize) -> bool
    requires { AreThere (T.trees terms.now) t n }
    ensures { IsTrue result ↔ IsArgument (T.trees terms.now) t k n }
{
    terms.is_sound();
    match number_at(terms.args(t), k) {
        Some(own) => own == n,
        None => false,
    }
}
