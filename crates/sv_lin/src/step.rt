ghost use Rattle.std.specs.Prelude.{IfOk, MatchOption};
ghost use Rattle.sv_log.specs.LogRows.{IsCombined};
ghost use Rattle.sv_lin.specs.Eliminations.{ExceedsCombination};
ghost use Rattle.sv_lin.specs.CancellingRows.{row_by, CanCancel};

use std::alloc::Global;
use sv_num::combine;
use sv_row::{combined, multipliers};
use sv_text::NoMemory;

/// What two rows make, and the multipliers with which their greatest column cancels.
#[derive(Drop)]
pub struct Combination {
    pub m: i128,
    pub n: i128,
    pub constant: i128,
    pub parts: Vec<(i128, usize)>,
}

/// The combination of two rows with the least multipliers; `None` where a number of it is no `i128`.
pub fn combine_rows(
    alloc: Global,
    k: i128,
    own: &[(i128, usize)],
    l: i128,
    other: &[(i128, usize)],
) -> Result<Option<Combination>, NoMemory>
    requires { CanCancel (row_by k own.now) (row_by l other.now) }
    ensures { IfOk result
        (λ made. MatchOption made (ExceedsCombination (row_by k own.now) (row_by l other.now))
        (λ c. IsCombined c.m (row_by k own.now) c.n (row_by l other.now) (row_by c.constant c.parts.items))) }
{
    let (Some((&(first, _), _)), Some((&(second, _), _))) = (own.split_last(), other.split_last())
    else {
        return Ok(None);
    };
    let Some((m, n)) = multipliers(first, second) else {
        return Ok(None);
    };
    let Some(constant) = combine(m, k, n, l) else {
        return Ok(None);
    };
    let Some(parts) = combined(alloc, m, own, n, other)? else {
        return Ok(None);
    };
    Ok(Some(Combination {
        m,
        n,
        constant,
        parts,
    }))
}
