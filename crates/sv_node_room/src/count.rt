ghost use Rattle.std.specs.Prelude.{◌≡◌, ◌↔◌, ◌+◌, length, IsTrue};
ghost use Rattle.sv_log.specs.LogEntries.{terms_among};
ghost use Rattle.sv_cert.specs.PlainLogs.{plain_node};
ghost use Rattle.sv_log_shape.specs.LoggedShapes.{cells_in};
ghost use Rattle.sv_new_term.specs.Offers.{HasNodeRoom};

use crate::cells::cell_count;
use sv_cert::{LogNode, Part};
use sv_term_room::TermRoom;

/// How many arguments the node has.
pub fn term_count(node: &LogNode) -> usize
    ensures { result ≡ length (terms_among (plain_node node.now).parts) }
{
    let mut count = 0;
    for part in node.parts.as_slice() {
        if let Part::Term(_) = part {
            count += 1;
        }
    }
    count
}

/// How many sorts the term of the node takes at most: 1 more than the cells of the sort that it names.
pub fn sort_count(node: &LogNode) -> usize
    ensures { result ≡ cells_in (plain_node node.now).parts + 1 }
{
    for part in node.parts.as_slice() {
        if let Part::Sort(sort) = part {
            return cell_count(sort) + 1;
        }
    }
    1
}

/// Whether the room of terms has room for the node.
pub fn has_room(room: &TermRoom, node: &LogNode) -> bool
    ensures { IsTrue result ↔ HasNodeRoom room.now (plain_node node.now) }
{
    room.has_room(term_count(node), sort_count(node))
}
