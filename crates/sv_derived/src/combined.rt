ghost use Rattle.std.specs.Prelude.{◌↔◌, ◌<ℤ◌, pos, IsTrue};
ghost use Rattle.sv_log.specs.LogRows.{row, IsCombined};
ghost use Rattle.sv_row.specs.RowParts.{monomials, IsNormal};
ghost use Rattle.sv_derived.specs.Columns.{AddsUp};

use crate::opposite::cancel;
use crate::sum::is_sum;
use sv_num::combine;

/// Whether the row of constant `t` and parts `made` is `m` times the row of `j` and `own` and `n` times that of `k` and `other`,
/// which cancels the greatest column of both, with the least multipliers that do. It is false where a number of a multiple or of the sum is no `i128`.
pub fn is_combined(
    m: i128,
    j: i128,
    own: &[(i128, usize)],
    n: i128,
    k: i128,
    other: &[(i128, usize)],
    t: i128,
    made: &[(i128, usize)],
) -> bool
    requires { IsNormal (monomials own.now) × IsNormal (monomials other.now) }
    ensures { IsTrue result ↔ IsCombined m (row j (monomials own.now)) n (row k (monomials other.now))
        (row t (monomials made.now)) }
{
    let Some((&(f, x), _)) = own.split_last() else {
        return false;
    };
    let Some((&(g, y), _)) = other.split_last() else {
        return false;
    };
    if x != y {
        return false;
    }
    if !cancel(m, f, n, g) {
        return false;
    }
    is_row_sum(m, j, own, n, k, other, t, made)
}

fn is_row_sum(
    m: i128,
    j: i128,
    own: &[(i128, usize)],
    n: i128,
    k: i128,
    other: &[(i128, usize)],
    t: i128,
    made: &[(i128, usize)],
) -> bool
    requires positive { (pos 0 <ℤ m) × (pos 0 <ℤ n) }
    requires normal { IsNormal (monomials own.now) × IsNormal (monomials other.now) }
    ensures { IsTrue result ↔ AddsUp m j own.now n k other.now t made.now }
{
    let Some(constant) = combine(m, j, n, k) else {
        return false;
    };
    if constant != t {
        return false;
    }
    is_sum(m, own, n, other, made)
}
