ghost use Rattle.std.specs.Prelude.{map, IsTrue, ℤ};
ghost use Rattle.sv_row.specs.RowParts.{monomials, AreAbove, AreRising, AreNonZero};
ghost use Rattle.sv_cert.specs.PlainLogs.{plain_row};
ghost use Rattle.sv_lin.specs.CancellingRows.{row_by, CanCancel};
ghost use Rattle.sv_lin.specs.Eliminations.{AreNormal};

use sv_cert::Row;

/// Whether in each row the columns rise and no number is 0.
pub fn are_normal(rows: &[Row]) -> bool
    ensures { IsTrue result → AreNormal (map plain_row rows.now) }
{
    for row in rows {
        if !is_normal(row.parts.as_slice()) {
            return false;
        }
    }
    true
}

fn is_normal(parts: &[(i128, usize)]) -> bool
    ensures { IsTrue result → AreRising (monomials parts.now) × AreNonZero (monomials parts.now) }
{
    match parts.split_first() {
        None => true,
        Some((&(factor, column), rest)) => {
            if factor == 0 {
                return false;
            }
            if !is_before(column, rest) {
                return false;
            }
            is_normal(rest)
        }
    }
}

/// Whether the column is below the first of the parts.
fn is_before(column: usize, parts: &[(i128, usize)]) -> bool
    ensures { IsTrue result → AreRising (monomials parts.now)
        → AreAbove column (monomials parts.now) }
{
    match parts.split_first() {
        None => true,
        Some((&(_factor, next), _)) => column < next,
    }
}

/// Whether the rows of these parts have one greatest column, where the first has a positive number and the other a negative one.
pub fn can_cancel(own: &[(i128, usize)], other: &[(i128, usize)]) -> bool
    ensures { IsTrue result → (j k : ℤ) → CanCancel (row_by j own.now) (row_by k other.now) }
{
    let (Some((&(k, x), _)), Some((&(l, y), _))) = (own.split_last(), other.split_last()) else {
        return false;
    };
    if x != y || k <= 0 || 0 <= l {
        return false;
    }
    if !is_normal(own) {
        return false;
    }
    is_normal(other)
}
