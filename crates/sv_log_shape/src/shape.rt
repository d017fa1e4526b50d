ghost use Rattle.std.specs.Prelude.{◌≡◌, ◌+◌, ◌≤◌, length, map, MatchOption};
ghost use Rattle.sv_log.specs.LogEntries.{shape_of};
ghost use Rattle.sv_cert.specs.PlainNodes.{plain_part};
ghost use Rattle.sv_cert.specs.PlainLogs.{plain_node};
ghost use Rattle.sv_log_sort.specs.TakenSorts.{Grows};
ghost use Rattle.sv_log_shape.specs.LoggedShapes.{cells_in, NeverFits, IsShapeOf};

use crate::held::held;
use crate::parts::{flag, number, sort};
use sv_cert::LogNode;
use sv_term_room::{Shape, TermRoom};

/// The shape of the node; `None` where no node of that shape fits, whatever its arguments, or its number can't be held.
pub fn log_shape(room: &mut TermRoom, node: &LogNode) -> Option<Shape>
    requires { length room.old.cells + cells_in (map plain_part node.now.parts) ≤ room.old.sorts_room }
    ensures grows { Grows room.old room.new (cells_in (map plain_part node.now.parts)) }
    ensures shape { MatchOption result (NeverFits (shape_of (plain_node node.now))) (IsShapeOf room.new.cells (shape_of (plain_node node.now))) }
{
    let parts = node.parts.as_slice();
    let flag = flag(parts);
    let number = number(parts);
    match sort(room, parts) {
        Some(sort) => held(node.kind, flag, number, sort),
        None => None,
    }
}
