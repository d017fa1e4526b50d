ghost use Rattle.std.specs.Prelude.{◌≡◌, ◌<◌, ◌^◌};
ghost use Rattle.sv_cert.specs.PlainNodes.{plain_sort};
ghost use Rattle.sv_log_sort.specs.TakenSorts.{cells_of};
ghost use Rattle.sv_node_room.specs.RoomCounts.{cells_of_all};

use sv_cert::LogSort;

/// How many cells the sort has. It calls itself for a sort within the sort, so it takes stack for each bracket and each part.
#[cycle(cell_count)]
pub(crate) fn cell_count(sort: &LogSort) -> usize
    requires { cells_of (plain_sort sort.now) < 2 ^ 64 }
    ensures { result ≡ cells_of (plain_sort sort.now) }
{
    match sort {
        LogSort::Num(_) | LogSort::Bool => 1,
        LogSort::Arr(element) => 1 + cell_count(element.get()),
        LogSort::Tup(parts) => 1 + part_cells(parts.as_slice()),
    }
}

#[cycle(cell_count)]
fn part_cells(parts: &[LogSort]) -> usize
    requires { cells_of_all parts.now < 2 ^ 64 }
    ensures { result ≡ cells_of_all parts.now }
{
    match parts {
        [] => 0,
        [first, others @ ..] => 1 + cell_count(first) + part_cells(others),
    }
}
