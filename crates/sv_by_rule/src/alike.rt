ghost use Rattle.std.specs.Prelude.{◌≡◌, ◌↔◌, ◌<◌, length, IsTrue};
ghost use Rattle.sv_by_rule.specs.ItemFacts.{CanCompare, AreEqual, CanAskAll, IsAlike};

use crate::items::is_equation;
use sv_force::InForce;
use sv_pattern::{Name, TermNumbers, as_two};

// Whether the items say, in order, that the arguments that differ are equal.
fn are_differences<T: TermNumbers>(
    terms: &T,
    force: &InForce,
    from: &[usize],
    xs: &[usize],
    ys: &[usize],
) -> bool
    requires { CanCompare (T.trees terms.now) force.now.items from.now xs.now ys.now }
    ensures { IsTrue result ↔ AreEqual (T.trees terms.now) force.now.items from.now xs.now ys.now }
{
    terms.is_sound();
    if xs.len() != ys.len() {
        return false;
    }
    let mut taken = 0;
    for i in 0..xs.len() {
        let x = xs[i];
        let y = ys[i];
        if x != y {
            if taken == from.len() {
                return false;
            }
            if !is_equation(terms, force, from[taken], x, y) {
                return false;
            }
            taken += 1;
        }
    }
    taken == from.len()
}

// Whether the fact is an equation of two nodes that differ in arguments alone, and the items say that these are equal.
pub(crate) fn is_alike<T: TermNumbers>(
    terms: &T,
    force: &InForce,
    from: &[usize],
    sign: bool,
    n: usize,
) -> bool
    requires { CanAskAll (T.trees terms.now) force.now.items from.now n }
    ensures { IsTrue result ↔ IsAlike (T.trees terms.now) force.now.items from.now sign n }
{
    let Some((first, second)) = as_two(terms, n, Name::Eq) else {
        return false;
    };
    if !sign {
        return false;
    }
    if !terms.same_shape(first, second) {
        return false;
    }
    are_differences(terms, force, from, terms.args(first), terms.args(second))
}
