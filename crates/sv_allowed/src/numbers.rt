ghost use Rattle.std.specs.Prelude.{◌≡◌, ◌↔◌, ◌<◌, length, true, IsTrue};
ghost use Rattle.std.specs.List.{All};
ghost use Rattle.sv_term.specs.Terms.{Truth};
ghost use Rattle.sv_term.specs.Models.{is_claim};
ghost use Rattle.sv_log.specs.LogEntries.{columns};
ghost use Rattle.sv_log.specs.Logs.{nth_term};
ghost use Rattle.sv_row.specs.RowParts.{monomials};
ghost use Rattle.sv_term_room.specs.TermRows.{terms_of};

use sv_sort_room::Cell;
use sv_term_room::{Shape, TermRoom};

/// Whether each column is the number of a term, of which there are so many.
pub fn are_columns(parts: &[(i128, usize)], terms: usize) -> bool
    ensures { IsTrue result ↔ All (λ n. n < terms) (columns (monomials parts.now)) }
{
    for &(_, column) in parts {
        if column >= terms {
            return false;
        }
    }
    true
}

/// Whether a term is a truth value.
pub fn is_claim(terms: &TermRoom, n: usize) -> bool
    requires { n < length terms.now.rows }
    ensures { IsTrue result ↔ (is_claim (nth_term (terms_of terms.now) n) ≡ true) }
{
    terms.is_sound();
    match terms.sorts().cell(terms.sort_of(n)) {
        Cell::Bool => true,
        Cell::Num(_) | Cell::Arr(_) | Cell::Unit | Cell::Tup(_, _) => false,
    }
}

/// Whether a term is that truth value itself.
pub(crate) fn is_truth(terms: &TermRoom, n: usize, value: bool) -> bool
    requires { n < length terms.now.rows }
    ensures { IsTrue result ↔ (nth_term (terms_of terms.now) n ≡ Truth value) }
{
    terms.is_sound();
    let (shape, _) = terms.node(n);
    shape.is(Shape::Truth(value))
}
