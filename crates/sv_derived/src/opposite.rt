ghost use Rattle.std.specs.Prelude.{◌↔◌, ◌*ℤ◌, ◌<ℤ◌, pos, IsTrue};
ghost use Rattle.sv_log.specs.LogRows.{Cancels};

use sv_row::multipliers;

/// Whether `m` times `k` and `n` times `l` cancel, and `m` and `n` are the least positive numbers with which they do.
pub fn cancel(m: i128, k: i128, n: i128, l: i128) -> bool
    ensures { IsTrue result ↔ Cancels m n k l }
{
    if !are_opposite(k, l) {
        return false;
    }
    match multipliers(k, l) {
        Some((first, second)) => m == first && n == second,
        None => false,
    }
}

fn are_opposite(k: i128, l: i128) -> bool
    ensures { IsTrue result ↔ ((k *ℤ l) <ℤ pos 0) }
{
    if k < 0 { 0 < l } else { 0 < k && l < 0 }
}
