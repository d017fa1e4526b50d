ghost use Rattle.std.specs.Prelude.{◌≡◌, ℕ, ℤ, map, MatchOption};
ghost use Rattle.sv_cert.specs.PlainLogs.{plain_row};
ghost use Rattle.sv_row.specs.RowParts.{monomials};
ghost use Rattle.sv_point.specs.NearestPoints.{IsRowOf, IsWorth};
ghost use Rattle.sv_point.specs.PointLaws.{IsBoundOf};
ghost use Rattle.sv_lin.specs.Eliminations.{IsNormalRow, ExceedsWorth};
ghost use Rattle.sv_lin.specs.Placing.{point_of, AreReduced, ExceedsAt};

use sv_cert::Row;
use sv_fraction::Fraction;

/// A column with its fraction.
#[derive(Clone, Copy, Debug)]
pub struct Place {
    pub column: usize,
    pub value: Fraction,
}

/// The fraction of a column; 0 where it has none.
fn value_at(places: &[Place], column: usize) -> Fraction
    ensures { result ≡ point_of places.now column }
{
    for place in places {
        if place.column == column {
            return place.value;
        }
    }
    Fraction::zero()
}

/// The fraction and the parts at the places together; `None` where a number on the way is no `i128`.
fn worked(start: Fraction, parts: &[(i128, usize)], places: &[Place]) -> Option<Fraction>
    ensures { MatchOption result (ExceedsWorth (point_of places.now) start (monomials parts.now))
        (λ g. IsWorth (point_of places.now) start (monomials parts.now) g) }
{
    let Some((&(factor, column), rest)) = parts.split_first() else {
        return Some(start);
    };
    let Some(sum) = start.plus(factor, value_at(places, column)) else {
        return None;
    };
    worked(sum, rest, places)
}

/// The bound that the row sets to its greatest column; `None` where a number on the way is no `i128`.
pub fn bound_at(row: &Row, places: &[Place]) -> Option<Fraction>
    requires normal { IsNormalRow (plain_row row.now) }
    requires reduced { AreReduced (point_of places.now) }
    ensures { (x : ℕ) (k : ℤ) → IsRowOf x k (plain_row row.now) → MatchOption result
        (ExceedsAt (point_of places.now) x (plain_row row.now))
        (λ g. IsBoundOf (point_of places.now) x k (plain_row row.now) g) }
{
    let Some((&(factor, _column), lows)) = row.parts.as_slice().split_last() else {
        return Some(Fraction::zero());
    };
    let Some(rest) = worked(Fraction::whole(row.constant), lows, places) else {
        return None;
    };
    rest.bound(factor)
}
