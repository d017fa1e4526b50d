//! What stands among the parts of a node.

ghost use Rattle.std.specs.Prelude.{◌≡◌, ◌+◌, ◌≤◌, length, map, vec_capacity};
ghost use Rattle.sv_log.specs.LogEntries.{terms_among, number_among, flag_among};
ghost use Rattle.sv_cert.specs.PlainNodes.{plain_part};
ghost use Rattle.sv_log_sort.specs.TakenSorts.{Grows};
ghost use Rattle.sv_log_shape.specs.LoggedShapes.{cells_in, IsTakingAmong};

use sv_cert::Part;
use sv_log_sort::add_log_sort;
use sv_term_room::TermRoom;

/// Puts the numbers of the terms among the parts, in order, in place of what is in the list. It takes no memory.
pub fn gather(list: &mut Vec<usize>, parts: &[Part])
    requires { length (terms_among (map plain_part parts.now)) ≤ vec_capacity list.old }
    ensures items { list.new.items ≡ terms_among (map plain_part parts.now) }
    ensures capacity { vec_capacity list.old ≤ vec_capacity list.new }
{
    list.clear();
    for part in parts {
        if let Part::Term(number) = part {
            list.push(*number).unwrap();
        }
    }
}

pub(crate) fn number(parts: &[Part]) -> u128
    ensures { result ≡ number_among (map plain_part parts.now) }
{
    for part in parts {
        if let Part::Number(m) = part {
            return *m;
        }
    }
    0
}

pub(crate) fn flag(parts: &[Part]) -> bool
    ensures { result ≡ flag_among (map plain_part parts.now) }
{
    for part in parts {
        if let Part::Flag(b) = part {
            return *b;
        }
    }
    false
}

/// The number of the sort among the parts, which is taken in; any number where there is none.
pub(crate) fn sort(room: &mut TermRoom, parts: &[Part]) -> Option<usize>
    requires { length room.old.cells + cells_in (map plain_part parts.now) ≤ room.old.sorts_room }
    ensures grows { Grows room.old room.new (cells_in (map plain_part parts.now)) }
    ensures sort { IsTakingAmong room.new.cells (map plain_part parts.now) result }
{
    for part in parts {
        if let Part::Sort(sort) = part {
            return add_log_sort(room, sort);
        }
    }
    Some(0)
}
