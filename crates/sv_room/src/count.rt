ghost use Rattle.std.specs.Prelude.{◌≡◌, map};
ghost use Rattle.sv_cert.specs.PlainNodes.{plain_sort, plain_part, sorts_from};
ghost use Rattle.sv_cert.specs.PlainLogs.{plain_node, plain_row, plain_entry, plain_log};
ghost use Rattle.sv_room.specs.Rooms.{room, capped, capped_room, total};
ghost use Rattle.sv_room.specs.Needs.{cells_of, cells_of_all, need_of_part, need_of_node, need_of_row, need_of};

use crate::room::Room;
use sv_cert::{Entry, Log, LogNode, LogSort, Part, Row};

/// How much the entries of a log take at most, all together; a number that would pass the greatest `usize` is that one,
/// and no checker has memory for so much.
pub fn room_of(log: &Log) -> Room
    ensures { result ≡ capped_room (total need_of (plain_log log.now)) }
{
    let mut room = Room::none();
    for entry in log.entries.as_slice() {
        room = room.and(room_for(entry));
    }
    room
}

/// How much an entry takes at most.
pub fn room_for(entry: &Entry) -> Room
    ensures { result ≡ capped_room (need_of (plain_entry entry.now)) }
{
    match entry {
        Entry::Term(node) => room_for_node(node),
        Entry::Linear(_, _, row) | Entry::Combine(_, _, _, _, row) | Entry::Divide(_, _, row) => {
            room_for_row(row)
        }
        Entry::Fact(_, _, _, _) => one_item(),
        Entry::Split(_) => one_split(),
        Entry::Cut | Entry::Close(_) | Entry::Clash(_, _) => Room::none(),
    }
}

fn one_item() -> Room
    ensures { result ≡ room 0 0 0 1 0 0 }
{
    Room {
        items: 1,
        ..Room::none()
    }
}

fn one_split() -> Room
    ensures { result ≡ room 0 0 0 1 0 1 }
{
    Room {
        items: 1,
        splits: 1,
        ..Room::none()
    }
}

fn room_for_row(row: &Row) -> Room
    ensures { result ≡ need_of_row (plain_row row.now) }
{
    Room {
        items: 1,
        coefficients: row.parts.len(),
        ..Room::none()
    }
}

fn room_for_node(node: &LogNode) -> Room
    ensures { result ≡ capped_room (need_of_node (plain_node node.now)) }
{
    let own = Room {
        terms: 1,
        sorts: 1,
        ..Room::none()
    };
    own.and(room_for_parts(node.parts.as_slice()))
}

fn room_for_parts(parts: &[Part]) -> Room
    ensures { result ≡ capped_room (total need_of_part (map plain_part parts.now)) }
{
    let mut room = Room::none();
    for part in parts {
        room = room.and(room_for_part(part));
    }
    room
}

fn room_for_part(part: &Part) -> Room
    ensures { result ≡ capped_room (need_of_part (plain_part part.now)) }
{
    match part {
        Part::Term(_) => Room {
            args: 1,
            ..Room::none()
        },
        Part::Sort(sort) => Room {
            sorts: cells_of(sort),
            ..Room::none()
        },
        Part::Number(_) | Part::Flag(_) => Room::none(),
    }
}

// It calls itself for a sort within it, so it takes stack for each bracket of its text.
#[cycle(cells)]
fn cells_of(sort: &LogSort) -> usize
    ensures { result ≡ capped (cells_of (plain_sort sort.now)) }
{
    match sort {
        LogSort::Num(_) | LogSort::Bool => 1,
        LogSort::Arr(element) => cells_of(element.get()).saturating_add(1),
        LogSort::Tup(parts) => cells_of_all(parts.as_slice()).saturating_add(1),
    }
}

#[cycle(cells)]
fn cells_of_all(sorts: &[LogSort]) -> usize
    ensures { result ≡ capped (cells_of_all (sorts_from (map plain_sort sorts.now))) }
{
    let mut cells = 0usize;
    for sort in sorts {
        cells = cells.saturating_add(cells_of(sort)).saturating_add(1);
    }
    cells
}
