ghost use Rattle.std.specs.Prelude.{◌≡◌, ◌≤◌, length, IfSome};
ghost use Rattle.sv_term.specs.Banks.{AreTerms, term_list};
ghost use Rattle.sv_room.specs.HeldRooms.{args_in};
ghost use Rattle.sv_goal_room.specs.GoalFilling.{HaveSorts};

use crate::node::arg_count;
use sv_term::{Bank, TermId};

/// How many arguments these terms have together.
pub(crate) fn args_in(bank: &Bank, ids: &[TermId]) -> Option<usize>
    requires { AreTerms bank.now ids.now }
    ensures { IfSome result (λ n. n ≡ args_in (term_list bank.now ids.now)) }
{
    let mut sum: usize = 0;
    for &id in ids {
        sum = sum.checked_add(arg_count(bank.node_of(id)))?;
    }
    Some(sum)
}

/// So many sorts of the bank, from the first on, that those of these terms are among them.
pub(crate) fn sorts_in(bank: &Bank, ids: &[TermId]) -> Option<usize>
    requires { AreTerms bank.now ids.now }
    ensures { IfSome result (λ n. (n ≤ length bank.now.sorts) × HaveSorts bank.now ids.now n) }
{
    let mut count = 0;
    for &id in ids {
        let sort = bank.sort_of(id);
        if sort.0 >= count {
            count = sort.0.checked_add(1)?;
        }
    }
    Some(count)
}
