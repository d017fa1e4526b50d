ghost use Rattle.std.specs.Prelude.{◌↔◌, ◌≡◌, ◌*ℤ◌, IsTrue};
ghost use Rattle.sv_log.specs.LogRows.{row, times_parts, IsDivided};
ghost use Rattle.sv_row.specs.RowParts.{monomials};

use sv_num::{ceil_div, mul};

/// Whether the row of constant `t` and parts `made` is the row of `k` and `own` with each number divided by `d`, at least 2, and the constant's quotient rounded up.
pub fn is_divided(d: i128, k: i128, own: &[(i128, usize)], t: i128, made: &[(i128, usize)]) -> bool
    ensures { IsTrue result
        ↔ IsDivided d (row k (monomials own.now)) (row t (monomials made.now)) }
{
    if d < 2 {
        return false;
    }
    if ceil_div(k, d) != t {
        return false;
    }
    are_multiples(d, made, own)
}

fn are_multiples(d: i128, parts: &[(i128, usize)], multiples: &[(i128, usize)]) -> bool
    ensures { IsTrue result ↔ (monomials multiples.now ≡ times_parts d (monomials parts.now)) }
{
    let Some((&(k, x), rest)) = parts.split_first() else {
        return multiples.is_empty();
    };
    let Some((&(l, y), others)) = multiples.split_first() else {
        return false;
    };
    if x != y {
        return false;
    }
    if !is_multiple(d, k, l) {
        return false;
    }
    are_multiples(d, rest, others)
}

fn is_multiple(d: i128, k: i128, l: i128) -> bool
    ensures { IsTrue result ↔ (l ≡ d *ℤ k) }
{
    match mul(d, k) {
        Some(product) => product == l,
        None => false,
    }
}
