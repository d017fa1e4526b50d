ghost use Rattle.std.specs.Prelude.{◌≡◌, ◌≤◌, ◌+◌, length, take, IfOk, OnErr};
ghost use Rattle.sv_term.specs.Banks.{row_of, TupRow};
ghost use Rattle.sv_sort_room.specs.SortCells.{Extends};
ghost use Rattle.sv_bank_sorts.specs.SortNumbering.{taken_by_all, AreNumbers, IsReady, IsAdded};

use std::alloc::Global;
use sv_sort_room::{Cell, SortRoom};
use sv_term::{Bank, SortId, SortNode};
use sv_text::NoMemory;

/// Puts a tuple into the room, and all its tails before it, the shortest first.
fn add_tuple(room: &mut SortRoom, parts: &[SortId], numbers: &[usize]) -> usize
    requires { IsReady room.old (TupRow parts.now) numbers.now }
    ensures { IsAdded room.old (TupRow parts.now) numbers.now result room.new }
{
    let mut number = room.add(Cell::Unit);
    let mut left = parts.len();
    while left > 0 {
        left -= 1;
        number = room.add(Cell::Tup(numbers[parts[left].0], number));
    }
    number
}

fn add(room: &mut SortRoom, node: &SortNode, numbers: &[usize]) -> usize
    requires { IsReady room.old (row_of node.now) numbers.now }
    ensures { IsAdded room.old (row_of node.now) numbers.now result room.new }
{
    match node {
        SortNode::Num(range) => room.add(Cell::Num(*range)),
        SortNode::Bool => room.add(Cell::Bool),
        SortNode::Arr(element) => room.add(Cell::Arr(numbers[element.0])),
        SortNode::Tup(parts) => add_tuple(room, parts, numbers),
    }
}

/// Puts the first `count` sorts of a bank into the room, and says the number of each there. After want of memory the room is as before.
pub fn number_sorts(
    alloc: Global,
    bank: &Bank,
    count: usize,
    room: &mut SortRoom,
) -> Result<Vec<usize>, NoMemory>
    requires count { count ≤ length bank.now.sorts }
    requires room { length room.old.cells + taken_by_all (take count bank.now.sorts) ≤ room.old.room }
    ensures numbers { IfOk result (λ v. AreNumbers bank.now room.new.cells count v.items) }
    ensures size { length room.new.cells ≤ length room.old.cells + taken_by_all (take count bank.now.sorts) }
    ensures kept { Extends room.old.cells room.new.cells }
    ensures room { room.new.room ≡ room.old.room }
    ensures err { OnErr result (room.new ≡ room.old) }
{
    let mut numbers = Vec::with_capacity(alloc, count)?;
    while numbers.len() < count {
        let number = add(room, bank.sort_node(SortId(numbers.len())), &numbers);
        numbers.push(number).unwrap();
    }
    Ok(numbers)
}
