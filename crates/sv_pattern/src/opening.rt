ghost use Rattle.std.specs.Prelude.{◌≡◌, ◌↔◌, ◌+◌, ◌<◌, ◌≤◌, ◌++◌, length, slice_get, Some, None, IsTrue, MatchOption};
ghost use Rattle.sv_term.specs.Terms.{Lit};
ghost use Rattle.sv_term.specs.FactRuleTest.{shape_of};
ghost use Rattle.sv_log.specs.Logs.{nth_term};
ghost use Rattle.sv_pattern.specs.TermKinds.{shape_by, kind_of};
ghost use Rattle.sv_pattern.specs.NodeOpenings.{IsTwo, IsNoTwo, CanOpen, Opened};

use crate::numbers::{Kind, Name, TermNumbers};
use crate::step::Registers;

// Whether the node has that name.
fn is_named<T: TermNumbers>(terms: &T, n: usize, name: Name) -> bool
    requires { n < length (T.trees terms.now) }
    ensures { IsTrue result ↔ (shape_of (nth_term (T.trees terms.now) n) ≡ shape_by name) }
{
    terms.kind(n) == Kind::Bare(name)
}

pub(crate) fn is_of_kind<T: TermNumbers>(terms: &T, n: usize, kind: Kind) -> bool
    requires { n < length (T.trees terms.now) }
    ensures { IsTrue result ↔ (kind_of (shape_of (nth_term (T.trees terms.now) n)) ≡ kind) }
{
    terms.kind(n) == kind
}

/// The arguments of a node of that name with two.
pub fn as_two<T: TermNumbers>(terms: &T, n: usize, name: Name) -> Option<(usize, usize)>
    requires { n < length (T.trees terms.now) }
    ensures { MatchOption result (IsNoTwo (T.trees terms.now) n name) (λ p. IsTwo (T.trees terms.now) n name p.0 p.1) }
{
    if !is_named(terms, n, name) {
        return None;
    }
    match terms.args(n) {
        [a, b] => Some((*a, *b)),
        _ => None,
    }
}

/// Whether the term is that literal.
pub fn is_literal<T: TermNumbers>(terms: &T, n: usize, negative: bool, number: u128) -> bool
    requires { n < length (T.trees terms.now) }
    ensures { IsTrue result ↔ (nth_term (T.trees terms.now) n ≡ Lit negative number) }
{
    terms.kind(n) == Kind::Lit(negative, number) && terms.args(n).is_empty()
}

// Names the arguments of a node of that name with so many.
pub(crate) fn open<T: TermNumbers>(
    terms: &T,
    names: &mut Registers,
    k: usize,
    name: Name,
    count: usize,
) -> bool
    requires { CanOpen (T.trees terms.now) names.old.items count }
    ensures { Opened (T.trees terms.now) names.old.items k name count names.new.items result }
{
    let Some(n) = named(names, k) else {
        return false;
    };
    if !is_named(terms, n, name) {
        return false;
    }
    let args = terms.args(n);
    if args.len() != count {
        return false;
    }
    append(names, args);
    true
}

fn append(registers: &mut Registers, args: &[usize])
    requires { length registers.old.items + length args.now ≤ 16 }
    ensures { registers.new.items ≡ registers.old.items ++ args.now }
{
    for n in args {
        registers.push(*n);
    }
}

// The number of the term that is named so.
pub(crate) fn named(registers: &Registers, k: usize) -> Option<usize>
    ensures { MatchOption result (slice_get registers.now.items k ≡ None)
        (λ n. slice_get registers.now.items k ≡ Some n) }
{
    number_at(registers.as_slice(), k)
}

pub(crate) fn number_at(numbers: &[usize], k: usize) -> Option<usize>
    ensures { MatchOption result (slice_get numbers.now k ≡ None)
        (λ n. slice_get numbers.now k ≡ Some n) }
{
    if k < numbers.len() {
        Some(numbers[k])
    } else {
        None
    }
}
