ghost use Rattle.std.specs.Prelude.{◌≤◌, vec_capacity};
ghost use Rattle.sv_cert.specs.PlainLogs.{plain_node};
ghost use Rattle.sv_new_term.specs.Offers.{IsOffer, IsOffered, IsReady};

use crate::by_number::offer_node;
use sv_cert::LogNode;
use sv_log_shape::{gather, log_shape};
use sv_term_room::TermRoom;

/// What becomes of a node.
#[derive(Clone, Copy, Debug, PartialEq, Eq)]
pub enum Outcome {
    /// It doesn't fit.
    Unfit,
    /// Its term is in the list.
    There,
    /// Its term stands at the end of the list.
    Added,
}

/// Adds the term of the node, if it fits and isn't there. `list` is for the arguments, so that no memory is taken.
pub fn offer(room: &mut TermRoom, list: &mut Vec<usize>, node: &LogNode) -> Outcome
    requires { IsReady room.old (plain_node node.now) (vec_capacity list.old) }
    ensures offer { IsOffer room.old room.new (plain_node node.now) result }
    ensures list { vec_capacity list.old ≤ vec_capacity list.new }
{
    room.is_sound();
    let count = room.sorts().len();
    let offer = offered(room, list, node);
    match offer {
        Outcome::Added => {}
        Outcome::Unfit | Outcome::There => room.truncate_sorts(count),
    }
    offer
}

fn offered(room: &mut TermRoom, list: &mut Vec<usize>, node: &LogNode) -> Outcome
    requires { IsReady room.old (plain_node node.now) (vec_capacity list.old) }
    ensures offer { IsOffered room.old room.new (plain_node node.now) result }
    ensures list { vec_capacity list.old ≤ vec_capacity list.new }
{
    match log_shape(room, node) {
        Some(shape) => {
            gather(list, node.parts.as_slice());
            offer_node(room, shape, list.as_slice())
        }
        None => Outcome::Unfit,
    }
}
