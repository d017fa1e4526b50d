ghost use Rattle.std.specs.Prelude.{◌≡◌, ◌↔◌, ◌<◌, length, IsTrue, MatchOption};
ghost use Rattle.sv_by_rule.specs.ItemFacts.{AreThere, AreHeld, AreNotHeld, CanAsk, AreThereBoth, IsEquationAt};

use arrayvec::ArrayVec;
use sv_force::InForce;
use sv_pattern::{Name, TermNumbers, as_two};

// How many premises a pattern takes at most.
pub(crate) const PREMISES: usize = 3;

pub(crate) type Premises = ArrayVec<(bool, usize), PREMISES>;

// The facts that the items are; `None` where one is a row, or where there are too many for a pattern.
pub(crate) fn gather(force: &InForce, from: &[usize]) -> Option<Premises>
    requires { AreThere force.now.items from.now }
    ensures { MatchOption result (AreNotHeld force.now.items from.now)
        (λ ps. AreHeld force.now.items from.now ps.items) }
{
    let mut premises = ArrayVec::new();
    if from.len() > PREMISES {
        return None;
    }
    for place in from {
        match force.fact(*place) {
            Some(fact) => premises.push(fact),
            None => return None,
        }
    }
    Some(premises)
}

// Whether the item is the fact that the two terms are equal.
pub(crate) fn is_equation<T: TermNumbers>(
    terms: &T,
    force: &InForce,
    place: usize,
    first: usize,
    second: usize,
) -> bool
    requires items { CanAsk (T.trees terms.now) force.now.items place }
    requires terms { AreThereBoth (T.trees terms.now) first second }
    ensures { IsTrue result ↔ IsEquationAt (T.trees terms.now) force.now.items place first second }
{
    terms.is_sound();
    let Some((true, n)) = force.fact(place) else {
        return false;
    };
    match as_two(terms, n, Name::Eq) {
        Some((own_first, own_second)) => own_first == first && own_second == second,
        None => false,
    }
}
