//! The terms of a goal in a room of terms, in the order in which a log numbers them.
//!
//! Promises: `fill` makes a room that holds exactly the terms of a goal, with as much room behind them as is asked for, and says the goal's own number.
//! Stands on: `sv_goal_terms` (which terms, in which order), `sv_bank_sorts` (the numbers of their sorts), `sv_term_room` (the room), `sv_room` (how much
//! is asked for); on `sv_term` and `sv_log` for what a term is, and what its number stands for.
//! Read first: `specs/GoalRooms.antt`.
#![tactic(auto)]

mod node;
mod room;
mod size;
mod sorts;

pub use room::{GoalRoom, fill};

#[cfg(test)]
mod tests {
    use super::*;
    use std::test::Fail;
    use sv_room::Room;
    use sv_sort_room::Cell;
    use sv_term::{Bank, Node, Range, SortNode, TermId};
    use sv_term_room::{Shape, TermRoom};
    use sv_text::NoMemory;

    /// The number of a node that fits; else that of the first term.
    fn put(bank: &mut Bank, node: Node) -> Result<TermId, NoMemory> {
        if bank.fits(&node) {
            return bank.add(node);
        }
        Ok(TermId(0))
    }

    /// Whether a term has that shape over these arguments, and the number of that sort.
    fn is_term(terms: &TermRoom, number: usize, shape: Shape, args: &[usize], sort: usize) -> bool {
        if number >= terms.len() {
            return false;
        }
        let (own, own_args) = terms.node(number);
        own.is(shape) && own_args == args && terms.sort_of(number) == sort
    }

    /// a[1] <= 1, behind a term and a sort that aren't in it.
    #[test]
    fn a_goal(rt: HostRuntime) -> Result<(), Fail> {
        let mut bank = Bank::new(rt.alloc());
        put(&mut bank, Node::Truth(true))?;
        let number = bank.sort(SortNode::Num(Range::Any))?;
        let array = bank.sort(SortNode::Arr(number))?;
        let one = put(&mut bank, Node::Lit(false, 1))?;
        let a = put(&mut bank, Node::Var(7, array))?;
        let entry = put(&mut bank, Node::Sel(a, one))?;
        let goal = put(&mut bank, Node::Le(entry, one))?;
        assert!(rt; goal.0 < bank.len());
        let more = Room {
            terms: 1,
            args: 2,
            sorts: 3,
            ..Room::none()
        };
        let GoalRoom { terms, goal } = fill(rt.alloc(), &bank, goal, more)?;
        // the sorts of the bank come in order: Bool, numbers, arrays of numbers
        assert!(rt; terms.sorts().len() == 3);
        assert!(rt; terms.sorts().cell(0) == Cell::Bool);
        assert!(rt; terms.sorts().cell(1) == Cell::Num(Range::Any));
        assert!(rt; terms.sorts().cell(2) == Cell::Arr(1));
        assert!(rt; terms.len() == 4 && goal == 3);
        assert!(rt; is_term(&terms, 0, Shape::Var(7, 2), &[], 2));
        assert!(rt; is_term(&terms, 1, Shape::Lit(false, 1), &[], 1));
        assert!(rt; is_term(&terms, 2, Shape::Sel, &[0, 1], 1));
        assert!(rt; is_term(&terms, 3, Shape::Le, &[2, 1], 0));
        assert!(rt; terms.has_room(2, 3));
        assert!(rt; !terms.has_room(3, 3) && !terms.has_room(2, 4));
        Ok(())
    }
}
