ghost use Rattle.std.specs.Prelude.{◌≡◌, ◌↔◌, ◌<◌, true, false, [], ◌∷◌, length, IsTrue, MatchOption};
ghost use Rattle.sv_pattern.specs.Patterns.{IsByPattern, signed, fact_by, facts_by};
ghost use Rattle.sv_pattern.specs.NodeOpenings.{IsReady, Fails, Passes, IsNoPremise, TakesOne, CanFollow};

use crate::bounds::after_range;
use crate::numbers::TermNumbers;
use crate::opening::{named, open};
use crate::related::{are_related, has_property};
use crate::step::{Registers, Sign, Step};
use arrayvec::ArrayVec;

// Takes a step: the premises that are left, or `None` where it doesn't hold.
fn take<'a, T: TermNumbers>(
    terms: &T,
    sign: bool,
    step: Step,
    from: &'a [(bool, usize)],
    names: &mut Registers,
) -> Option<&'a [(bool, usize)]>
    requires { IsReady (T.trees terms.now) (step ∷ []) from.now names.old.items }
    ensures { MatchOption result (Fails (T.trees terms.now) sign step from.now names.old.items)
        (λ x. Passes (T.trees terms.now) sign step from.now names.old.items x.now names.new.items) }
{
    match step {
        Step::Concludes(wanted) => kept(sign == wanted, from),
        Step::Premise(wanted) => take_premise(sign, wanted, from, names),
        Step::One(k, name) => kept(open(terms, names, k, name, 1), from),
        Step::Two(k, name) => kept(open(terms, names, k, name, 2), from),
        Step::Three(k, name) => kept(open(terms, names, k, name, 3), from),
        Step::Is(property, k) => {
            let n = named(names, k)?;
            kept(has_property(terms, property, n), from)
        }
        Step::Are(relation, j, k) => {
            let m = named(names, j)?;
            let n = named(names, k)?;
            kept(are_related(terms, relation, m, n), from)
        }
        Step::InRange(j, k) => {
            let place = named(names, j)?;
            let v = named(names, k)?;
            after_range(terms, place, v, from)
        }
    }
}

fn kept(holds: bool, premises: &[(bool, usize)]) -> Option<&[(bool, usize)]>
    ensures { MatchOption result (holds ≡ false)
        (λ left. (holds ≡ true) × (left.now ≡ premises.now)) }
{
    if holds { Some(premises) } else { None }
}

fn take_premise<'a>(
    sign: bool,
    wanted: Sign,
    from: &'a [(bool, usize)],
    names: &mut Registers,
) -> Option<&'a [(bool, usize)]>
    requires { length names.old.items < 16 }
    ensures { MatchOption result (IsNoPremise (signed wanted sign) from.now)
        (λ left. TakesOne (signed wanted sign) from.now left.now names.old.items names.new.items) }
{
    let [(own, n), left @ ..] = from else {
        return None;
    };
    let expected = match wanted {
        Sign::Plus => true,
        Sign::Minus => false,
        Sign::Same => sign,
        Sign::Other => !sign,
    };
    names.push(*n);
    kept(*own == expected, left)
}

/// Whether the fact of that sign on that term follows from the premises by the steps.
pub fn follow<T: TermNumbers>(
    terms: &T,
    steps: &[Step],
    premises: &[(bool, usize)],
    sign: bool,
    n: usize,
) -> bool
    requires { CanFollow (T.trees terms.now) steps.now premises.now n }
    ensures { IsTrue result ↔ IsByPattern steps.now (facts_by (T.trees terms.now) premises.now) (fact_by (T.trees terms.now) (sign, n)) }
{
    let mut registers: Registers = ArrayVec::new();
    registers.push(n);
    let mut left = premises;
    for step in steps {
        match take(terms, sign, *step, left, &mut registers) {
            Some(more) => left = more,
            None => return false,
        }
    }
    left.is_empty()
}
