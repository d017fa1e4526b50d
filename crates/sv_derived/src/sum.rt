ghost use Rattle.std.specs.Prelude.{◌≡◌, ◌↔◌, ◌<ℤ◌, pos, [], IsTrue, MatchOption};
ghost use Rattle.sv_row.specs.RowParts.{monomials, IsNormal};
ghost use Rattle.sv_derived.specs.RowSums.{IsSumOf};
ghost use Rattle.sv_derived.specs.Columns.{IsLeast, IsFrom, TakesAt, LeavesBehind};

use sv_num::combine;

/// Whether the parts are those of `m` times one row and `n` times another together, each number of the two multiples and of the sum an `i128`.
pub fn is_sum(
    m: i128,
    own: &[(i128, usize)],
    n: i128,
    other: &[(i128, usize)],
    made: &[(i128, usize)],
) -> bool
    requires positive { (pos 0 <ℤ m) × (pos 0 <ℤ n) }
    requires normal { IsNormal (monomials own.now) × IsNormal (monomials other.now) }
    ensures { IsTrue result
        ↔ IsSumOf m (monomials own.now) n (monomials other.now) (monomials made.now) }
{
    let mut own_left = own;
    let mut other_left = other;
    let mut made_left = made;
    while let Some(x) = least_column(own_left, other_left) {
        let (k, own_rest) = at_column(own_left, x);
        let (l, other_rest) = at_column(other_left, x);
        let Some(number) = combine(m, k, n, l) else {
            return false;
        };
        let Some(rest) = behind(number, x, made_left) else {
            return false;
        };
        own_left = own_rest;
        other_left = other_rest;
        made_left = rest;
    }
    made_left.is_empty()
}

fn least_column(own: &[(i128, usize)], other: &[(i128, usize)]) -> Option<usize>
    requires { IsNormal (monomials own.now) × IsNormal (monomials other.now) }
    ensures { MatchOption result ((own.now ≡ []) × (other.now ≡ []))
        (IsLeast (monomials own.now) (monomials other.now)) }
{
    match (own.split_first(), other.split_first()) {
        (Some((&(_, x), _)), Some((&(_, y), _))) => Some(if x < y { x } else { y }),
        (Some((&(_, x), _)), None) => Some(x),
        (None, Some((&(_, y), _))) => Some(y),
        (None, None) => None,
    }
}

// The number at a column, 0 where the parts begin with a later one, and the parts behind it.
fn at_column(parts: &[(i128, usize)], x: usize) -> (i128, &[(i128, usize)])
    requires { IsNormal (monomials parts.now) × IsFrom x (monomials parts.now) }
    ensures { TakesAt x (monomials parts.now) result.0 (monomials result.1.now) }
{
    match parts.split_first() {
        Some((&(k, y), rest)) => { if y == x { (k, rest) } else { (0, parts) } }
        None => (0, parts),
    }
}

// What stands behind a number and its column; behind nothing, where the number is 0.
fn behind(number: i128, x: usize, made: &[(i128, usize)]) -> Option<&[(i128, usize)]>
    ensures { LeavesBehind number x (monomials made.now) result }
{
    if number == 0 {
        return Some(made);
    }
    match made.split_first() {
        Some((&(k, y), rest)) => {
            if k == number && y == x {
                Some(rest)
            } else {
                None
            }
        }
        None => None,
    }
}
