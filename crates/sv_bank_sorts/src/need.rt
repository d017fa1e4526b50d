ghost use Rattle.std.specs.Prelude.{◌≡◌, ◌≤◌, ◌^◌, length, take, MatchOption};
ghost use Rattle.sv_term.specs.Banks.{row_of};
ghost use Rattle.sv_bank_sorts.specs.SortNumbering.{taken, taken_by_all};

use sv_term::{Bank, SortId, SortNode};

fn taken(node: &SortNode) -> Option<usize>
    ensures { MatchOption result (2 ^ 64 ≤ taken (row_of node.now))
        (λ n. n ≡ taken (row_of node.now)) }
{
    match node {
        SortNode::Num(_) | SortNode::Bool | SortNode::Arr(_) => Some(1),
        SortNode::Tup(parts) => parts.len().checked_add(1),
    }
}

/// For how many cells the first `count` sorts of a bank need room; `None` where that is more than the greatest `usize`.
pub fn cells_for(bank: &Bank, count: usize) -> Option<usize>
    requires { count ≤ length bank.now.sorts }
    ensures { MatchOption result (2 ^ 64 ≤ taken_by_all (take count bank.now.sorts)) (λ n. n ≡ taken_by_all (take count bank.now.sorts)) }
{
    let mut sum: usize = 0;
    let mut k = 0;
    while k < count {
        sum = sum.checked_add(taken(bank.sort_node(SortId(k)))?)?;
        k += 1;
    }
    Some(sum)
}
