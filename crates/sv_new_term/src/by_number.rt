ghost use Rattle.std.specs.Prelude.{length};
ghost use Rattle.sv_term_room.specs.TermRows.{HasRoom};
ghost use Rattle.sv_new_term.specs.Offers.{IsNode, IsNodeOffer, IsAddable, Adds};

use crate::entry::Outcome;
use sv_node_sort::{Needed, sort_needed};
use sv_term_room::{Shape, TermRoom};

/// The same of a node by number.
pub(crate) fn offer_node(room: &mut TermRoom, shape: Shape, args: &[usize]) -> Outcome
    requires node { IsNode room.old shape args.now }
    requires room { HasRoom room.old (length args.now) 1 }
    ensures { IsNodeOffer room.old room.new shape args.now result }
{
    room.is_sound();
    match sort_needed(room, shape, args) {
        Some(needed) => match room.find(shape, args) {
            Some(_) => Outcome::There,
            None => {
                add(room, shape, args, needed);
                Outcome::Added
            }
        },
        None => Outcome::Unfit,
    }
}

fn add(room: &mut TermRoom, shape: Shape, args: &[usize], needed: Needed)
    requires { IsAddable room.old shape args.now needed }
    ensures { Adds room.old room.new shape args.now }
{
    match needed {
        Needed::There(sort) => room.push(shape, args, sort),
        Needed::Of(cell) => {
            let sort = room.add_sort(cell);
            room.push(shape, args, sort);
        }
    }
}
