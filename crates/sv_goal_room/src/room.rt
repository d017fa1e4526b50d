ghost use Rattle.std.specs.Prelude.{◌≡◌, ◌≤◌, ◌+◌, [], length, IfOk, OnOk};
ghost use Rattle.sv_term.specs.Banks.{IsTerm, AreTerms, term};
ghost use Rattle.sv_log.specs.Logs.{with_terms_of};
ghost use Rattle.sv_bank_sorts.specs.SortNumbering.{taken_by_all};
ghost use Rattle.sv_term_room.specs.TermRows.{terms_of, IsTermNumber};
ghost use Rattle.sv_goal_room.specs.GoalRooms.{HasMore, TakesArgs};
ghost use Rattle.sv_goal_room.specs.GoalFilling.{IsOrder, IsFilled, IsBegun, IsNext, IsPut};

use crate::node::{arg_numbers, shape_of};
use crate::size::args_in;
use crate::sorts::{add_sorts, sorts_of};
use std::alloc::Global;
use sv_goal_terms::GoalTerms;
use sv_room::Room;
use sv_sort_room::SortRoom;
use sv_term::{Bank, TermId};
use sv_term_room::TermRoom;
use sv_text::NoMemory;

/// The terms of a goal by number, and the goal's own number.
#[derive(Drop)]
pub struct GoalRoom {
    pub terms: TermRoom,
    pub goal: usize,
}

/// The terms of a goal in the order of a log, with room for as many more terms, arguments and sorts as `more` says; what it says beyond these isn't looked at.
/// It takes all memory that the room ever needs.
pub fn fill(alloc: Global, bank: &Bank, goal: TermId, more: Room) -> Result<GoalRoom, NoMemory>
    requires { IsTerm bank.now goal }
    ensures terms { IfOk result (λ g. terms_of g.terms ≡ with_terms_of [] (term bank.now goal)) }
    ensures goal { IfOk result (λ g. IsTermNumber g.terms g.goal (term bank.now goal)) }
    ensures args { IfOk result (λ g. TakesArgs g.terms) }
    ensures sorts { IfOk result (λ g. length g.terms.cells ≤ taken_by_all bank.now.sorts) }
    ensures room { IfOk result (λ g. HasMore g.terms more) }
{
    bank.is_sound();
    let order = GoalTerms::of(alloc, bank, goal)?;
    let terms = filled(alloc, bank, &order, more)?;
    let goal = order.number_of(goal).unwrap();
    Ok(GoalRoom { terms, goal })
}

/// The terms in a room with further room.
fn filled(alloc: Global, bank: &Bank, order: &GoalTerms, more: Room) -> Result<TermRoom, NoMemory>
    requires { IsOrder bank.now order.now }
    ensures { IfOk result (IsFilled bank.now order.now more) }
{
    let ids = order.ids();
    let (sorts, numbers) = sorts_of(alloc, bank, ids)?;
    let mut terms = begin(alloc, bank, ids, &sorts, more)?;
    for &id in ids {
        put(alloc, bank, order, &numbers, id, &mut terms)?;
    }
    Ok(terms)
}

/// The sorts without the terms.
fn begin(
    alloc: Global,
    bank: &Bank,
    ids: &[TermId],
    sorts: &SortRoom,
    more: Room,
) -> Result<TermRoom, NoMemory>
    requires { AreTerms bank.now ids.now }
    ensures { IfOk result (IsBegun bank.now ids.now sorts.now.cells more) }
{
    let args = args_in(bank, ids).ok_or(NoMemory)?;
    let mut room = TermRoom::new(
        alloc,
        sum(ids.len(), more.terms)?,
        sum(args, more.args)?,
        sum(sorts.len(), more.sorts)?,
    )?;
    add_sorts(&mut room, sorts);
    Ok(room)
}

fn sum(taken: usize, more: usize) -> Result<usize, NoMemory>
    ensures { IfOk result (λ n. n ≡ taken + more) }
{
    taken.checked_add(more).ok_or(NoMemory)
}

/// Puts the next term into the room.
fn put(
    alloc: Global,
    bank: &Bank,
    order: &GoalTerms,
    numbers: &[usize],
    id: TermId,
    room: &mut TermRoom,
) -> Result<(), NoMemory>
    requires { IsNext bank.now order.now numbers.now id room.old }
    ensures { OnOk result (IsPut bank.now id room.old room.new) }
{
    bank.is_sound();
    let node = bank.node_of(id);
    let args = arg_numbers(alloc, node, order)?;
    let sort = numbers[bank.sort_of(id).0];
    room.push(shape_of(node, sort), &args, sort);
    Ok(())
}
