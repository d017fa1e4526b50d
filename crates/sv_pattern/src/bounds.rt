ghost use Rattle.std.specs.Prelude.{◌≡◌, true, MatchOption};
ghost use Rattle.sv_term.specs.Sorts.{is_range};
ghost use Rattle.sv_term.specs.Banks.{range_of};
ghost use Rattle.sv_pattern.specs.Bounds.{HasNoLeast, IsLeastOf, HasNoGreatest, IsGreatestOf, CanBound, CanRange, IsNotBehindLow, IsBehindLow, IsNotBehindHigh, IsBehindHigh, IsNotBehindRange, IsBehindRange};

use crate::numbers::{Name, TermNumbers};
use crate::opening::{as_two, is_literal};
use sv_term::Range;

// The least number of a range, with its sign.
pub(crate) fn least(range: Range) -> Option<(bool, u128)>
    requires { is_range (range_of range) ≡ true }
    ensures { MatchOption result (HasNoLeast range) (IsLeastOf range) }
{
    match range {
        Range::Any => None,
        Range::Low | Range::Bits(false, _) => Some((false, 0)),
        Range::Bits(true, bits) => Some((true, 1 << (bits - 1))),
    }
}

// The greatest number of a range.
pub(crate) fn greatest(range: Range) -> Option<u128>
    requires { is_range (range_of range) ≡ true }
    ensures { MatchOption result (HasNoGreatest range) (IsGreatestOf range) }
{
    match range {
        Range::Any | Range::Low => None,
        Range::Bits(false, bits) => Some((1 << bits) - 1),
        Range::Bits(true, bits) => Some((1 << (bits - 1)) - 1),
    }
}

// The premises behind those that say that the term is at least the least of the range.
fn after_least<'a, T: TermNumbers>(
    terms: &T,
    range: Range,
    v: usize,
    premises: &'a [(bool, usize)],
) -> Option<&'a [(bool, usize)]>
    requires { CanBound (T.trees terms.now) range v premises.now }
    ensures { MatchOption result (IsNotBehindLow (T.trees terms.now) range v premises.now)
        (λ left. IsBehindLow (T.trees terms.now) range v premises.now left.now) }
{
    terms.is_sound();
    let Some((negative, number)) = least(range) else {
        return Some(premises);
    };
    let [(true, n), left @ ..] = premises else {
        return None;
    };
    let (low, high) = as_two(terms, *n, Name::Le)?;
    if high == v && is_literal(terms, low, negative, number) {
        Some(left)
    } else {
        None
    }
}

// The premises behind those that say that the term is at most the greatest of the range.
fn after_greatest<'a, T: TermNumbers>(
    terms: &T,
    range: Range,
    v: usize,
    premises: &'a [(bool, usize)],
) -> Option<&'a [(bool, usize)]>
    requires { CanBound (T.trees terms.now) range v premises.now }
    ensures { MatchOption result (IsNotBehindHigh (T.trees terms.now) range v premises.now)
        (λ left. IsBehindHigh (T.trees terms.now) range v premises.now left.now) }
{
    terms.is_sound();
    let Some(number) = greatest(range) else {
        return Some(premises);
    };
    let [(true, n), left @ ..] = premises else {
        return None;
    };
    let (low, high) = as_two(terms, *n, Name::Le)?;
    if low == v && is_literal(terms, high, false, number) {
        Some(left)
    } else {
        None
    }
}

// The premises behind those that say that the second term is in the range of the first's sort.
pub(crate) fn after_range<'a, T: TermNumbers>(
    terms: &T,
    place: usize,
    v: usize,
    premises: &'a [(bool, usize)],
) -> Option<&'a [(bool, usize)]>
    requires { CanRange (T.trees terms.now) place v premises.now }
    ensures { MatchOption result (IsNotBehindRange (T.trees terms.now) place v premises.now)
        (λ left. IsBehindRange (T.trees terms.now) place v premises.now left.now) }
{
    if terms.same_sort(place, v) {
        return Some(premises);
    }
    let Some(range) = terms.range(place) else {
        return Some(premises);
    };
    match after_least(terms, range, v, premises) {
        Some(left) => after_greatest(terms, range, v, left),
        None => None,
    }
}
