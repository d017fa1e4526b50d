ghost use Rattle.std.specs.Prelude.{◌≡◌, ◌<◌, false, length, MatchOption};
ghost use Rattle.sv_term.specs.Sorts.{NoSorts};
ghost use Rattle.sv_term_room.specs.TermRows.{AreBelow};
ghost use Rattle.sv_sort_room.specs.SortCells.{nth_sort, sorts_of};
ghost use Rattle.sv_node_sort.specs.NeededSorts.{kinds_of, has_parts, HasNoNext, IsNext, AreThere};

use sv_sort_room::{Cell, SortRoom};
use sv_term_room::TermRoom;

/// Whether the sort is one of tuples, and the arguments are the parts of such a tuple.
pub(crate) fn are_parts(room: &TermRoom, sort: usize, args: &[usize]) -> bool
    requires { AreBelow (length room.now.rows) args.now × (sort < length room.now.cells) }
    ensures { result
        ≡ has_parts (nth_sort (sorts_of room.now.cells) sort) (kinds_of room.now args.now) }
{
    let mut at = sort;
    for &number in args {
        match next(room.sorts(), at, room.sort_of(number)) {
            Some(rest) => at = rest,
            None => return false,
        }
    }
    ends(room.sorts(), at)
}

/// The sort of the tuple of the other parts, where the first may be a term of that sort.
fn next(sorts: &SortRoom, at: usize, kind: usize) -> Option<usize>
    requires { AreThere (length sorts.now.cells) at kind }
    ensures { MatchOption result (HasNoNext (sorts_of sorts.now.cells) at kind)
        (IsNext (sorts_of sorts.now.cells) at kind) }
{
    match sorts.cell(at) {
        Cell::Tup(first, rest) => {
            if sorts.matches(first, kind) {
                Some(rest)
            } else {
                None
            }
        }
        Cell::Num(_) | Cell::Bool | Cell::Arr(_) | Cell::Unit => None,
    }
}

fn ends(sorts: &SortRoom, at: usize) -> bool
    requires { at < length sorts.now.cells }
    ensures { result ≡ has_parts (nth_sort (sorts_of sorts.now.cells) at) NoSorts }
{
    match sorts.cell(at) {
        Cell::Unit => true,
        Cell::Num(_) | Cell::Bool | Cell::Arr(_) | Cell::Tup(_, _) => false,
    }
}
