ghost use Rattle.std.specs.Prelude.{◌≡◌, ◌+◌, ◌≤◌, length};
ghost use Rattle.sv_term.specs.Sorts.{NumSort, is_sort};
ghost use Rattle.sv_term.specs.Banks.{range_of};
ghost use Rattle.sv_cert.specs.PlainNodes.{plain_sort};
ghost use Rattle.sv_log_sort.specs.TakenSorts.{cells_of, tuple_sort, Grows, IsTaking};

use sv_cert::LogSort;
use sv_sort_room::Cell;
use sv_term::Range;
use sv_term_room::TermRoom;

/// The number of the sort; `None` where it has a range of 0 bits or of more than 120. It calls itself for a sort within the sort, so it
/// takes stack for each bracket and each part.
#[cycle(add_log_sort)]
pub fn add_log_sort(room: &mut TermRoom, sort: &LogSort) -> Option<usize>
    requires { length room.old.cells + cells_of (plain_sort sort.now) ≤ room.old.sorts_room }
    ensures grows { Grows room.old room.new (cells_of (plain_sort sort.now)) }
    ensures sort { IsTaking room.new.cells (plain_sort sort.now) result }
{
    match sort {
        LogSort::Num(range) => add_range(room, *range),
        LogSort::Bool => Some(room.add_sort(Cell::Bool)),
        LogSort::Arr(element) => match add_log_sort(room, element.get()) {
            Some(number) => Some(room.add_sort(Cell::Arr(number))),
            None => None,
        },
        LogSort::Tup(parts) => add_parts(room, parts.as_slice()),
    }
}

/// The number of the sort of tuples with these parts.
#[cycle(add_log_sort)]
fn add_parts(room: &mut TermRoom, parts: &[LogSort]) -> Option<usize>
    requires { length room.old.cells + cells_of (tuple_sort parts.now) ≤ room.old.sorts_room }
    ensures grows { Grows room.old room.new (cells_of (tuple_sort parts.now)) }
    ensures sort { IsTaking room.new.cells (tuple_sort parts.now) result }
{
    match parts {
        [] => Some(room.add_sort(Cell::Unit)),
        [first, others @ ..] => match add_parts(room, others) {
            Some(rest) => match add_log_sort(room, first) {
                Some(number) => Some(room.add_sort(Cell::Tup(number, rest))),
                None => None,
            },
            None => None,
        },
    }
}

fn add_range(room: &mut TermRoom, range: Range) -> Option<usize>
    requires { length room.old.cells + 1 ≤ room.old.sorts_room }
    ensures grows { Grows room.old room.new 1 }
    ensures sort { IsTaking room.new.cells (NumSort (range_of range)) result }
{
    if has_bits(range) {
        Some(room.add_sort(Cell::Num(range)))
    } else {
        None
    }
}

fn has_bits(range: Range) -> bool
    ensures { result ≡ is_sort (NumSort (range_of range)) }
{
    match range {
        Range::Bits(_, bits) => 1 <= bits && bits <= 120,
        Range::Any | Range::Low => true,
    }
}
