ghost use Rattle.std.specs.Prelude.{◌≡◌, ◌<◌, cond, length, MatchOption};
ghost use Rattle.sv_term.specs.Sorts.{NumSort, Any, same_sort};
ghost use Rattle.sv_term_room.specs.TermRows.{AreBelow};
ghost use Rattle.sv_sort_room.specs.SortCells.{nth_sort, sorts_of};
ghost use Rattle.sv_term_room.specs.declared.shape.Shape.TheVariants.{Get, Sel};
ghost use Rattle.sv_node_sort.specs.NeededSorts.{AreNamed, IsNoTuple, AreThere, IsAnswer, Misfits, Needs, IsFrom, sort_from, kinds_of, no_kinds, one_kind, two_kinds, three_kinds};

use crate::needed::{Needed, answer};
use crate::sorts::{are_same, element, holds, is_array, is_bool, is_range, is_summed};
use crate::tuple::are_parts;
use sv_sort_room::{Cell, SortRoom};
use sv_term::Range;
use sv_term_room::{Shape, TermRoom};

const NUMBER: Needed = Needed::Of(Cell::Num(Range::Any));

const TRUTH: Needed = Needed::Of(Cell::Bool);

/// The sort of the node of that shape over these arguments; `None` where the node doesn't fit.
pub fn sort_needed(room: &TermRoom, shape: Shape, args: &[usize]) -> Option<Needed>
    requires args { AreBelow (length room.now.rows) args.now }
    requires sort { AreNamed (sorts_of room.now.cells) shape }
    ensures { MatchOption result (Misfits (sorts_of room.now.cells) shape (kinds_of room.now args.now))
        (Needs (sorts_of room.now.cells) shape (kinds_of room.now args.now)) }
{
    let sorts = room.sorts();
    if let Shape::Tup(sort) = shape {
        return answer(are_parts(room, sort, args), Needed::There(sort));
    }
    match args {
        [] => over_none(sorts, shape),
        [a] => over_one(sorts, shape, room.sort_of(*a)),
        [a, b] => over_two(sorts, shape, room.sort_of(*a), room.sort_of(*b)),
        [a, b, c] => over_three(
            sorts,
            shape,
            room.sort_of(*a),
            room.sort_of(*b),
            room.sort_of(*c),
        ),
        _ => None,
    }
}

fn over_none(sorts: &SortRoom, shape: Shape) -> Option<Needed>
    requires { IsNoTuple shape × AreNamed (sorts_of sorts.now.cells) shape }
    ensures { IsAnswer (sorts_of sorts.now.cells) shape no_kinds result }
{
    let _ = sorts;
    match shape {
        Shape::Lit(_, _) => Some(NUMBER),
        Shape::Truth(_) => Some(TRUTH),
        Shape::Var(_, sort) => Some(Needed::There(sort)),
        _ => None,
    }
}

fn over_one(sorts: &SortRoom, shape: Shape, a: usize) -> Option<Needed>
    requires named { IsNoTuple shape × AreNamed (sorts_of sorts.now.cells) shape }
    requires there { a < length sorts.now.cells }
    ensures { let ss = sorts_of sorts.now.cells in IsAnswer ss shape (one_kind ss a) result }
{
    match shape {
        Shape::Wrap(signed, bits) => answer(
            sorts.is_num(a) & is_range(signed, bits),
            Needed::Of(Cell::Num(Range::Bits(signed, bits))),
        ),
        Shape::Not => answer(is_bool(sorts, a), TRUTH),
        Shape::Const(sort) => answer(holds(sorts, sort, a), Needed::There(sort)),
        Shape::Get(k) => part_sort(sorts, a, k),
        Shape::Sum => answer(is_summed(sorts, a), NUMBER),
        _ => None,
    }
}

fn part_sort(sorts: &SortRoom, tuple: usize, k: usize) -> Option<Needed>
    requires { tuple < length sorts.now.cells }
    ensures { let ss = sorts_of sorts.now.cells in IsAnswer ss (Get k) (one_kind ss tuple) result }
{
    match sorts.part(tuple, k) {
        Some(part) => Some(Needed::There(part)),
        None => None,
    }
}

fn over_two(sorts: &SortRoom, shape: Shape, a: usize, b: usize) -> Option<Needed>
    requires named { IsNoTuple shape }
    requires there { AreThere (length sorts.now.cells) a b }
    ensures { let ss = sorts_of sorts.now.cells in IsAnswer ss shape (two_kinds ss a b) result }
{
    match shape {
        Shape::Add | Shape::Sub | Shape::Mul | Shape::Div | Shape::Mod => {
            answer(sorts.is_num(a) & sorts.is_num(b), NUMBER)
        }
        Shape::Le => answer(sorts.is_num(a) & sorts.is_num(b), TRUTH),
        Shape::Eq => answer(sorts.matches(a, b), TRUTH),
        Shape::And | Shape::Or => answer(is_bool(sorts, a) & is_bool(sorts, b), TRUTH),
        Shape::Sel => entry_sort(sorts, a, b),
        _ => None,
    }
}

fn entry_sort(sorts: &SortRoom, array: usize, index: usize) -> Option<Needed>
    requires { AreThere (length sorts.now.cells) array index }
    ensures { let ss = sorts_of sorts.now.cells in
        IsAnswer ss Sel (two_kinds ss array index) result }
{
    match element(sorts, array) {
        Some(own) => answer(sorts.is_num(index), Needed::There(own)),
        None => None,
    }
}

fn over_three(sorts: &SortRoom, shape: Shape, a: usize, b: usize, c: usize) -> Option<Needed>
    requires named { IsNoTuple shape }
    requires there { (a < length sorts.now.cells) × AreThere (length sorts.now.cells) b c }
    ensures { let ss = sorts_of sorts.now.cells in IsAnswer ss shape (three_kinds ss a b c) result }
{
    match shape {
        Shape::Ite => answer(is_bool(sorts, a) & sorts.matches(b, c), joined(sorts, b, c)),
        Shape::Sto => answer(holds(sorts, a, c) & sorts.is_num(b), Needed::There(a)),
        Shape::Mix => answer(
            sorts.is_num(a) & is_array(sorts, b) & are_same(sorts, b, c),
            Needed::There(b),
        ),
        _ => None,
    }
}

/// The sort of a choice between two terms.
fn joined(sorts: &SortRoom, a: usize, b: usize) -> Needed
    requires { AreThere (length sorts.now.cells) a b }
    ensures { let ss = sorts_of sorts.now.cells in IsFrom ss result × (sort_from ss result
        ≡ cond (same_sort (nth_sort ss a) (nth_sort ss b)) (nth_sort ss a) (NumSort Any)) }
{
    if are_same(sorts, a, b) {
        Needed::There(a)
    } else {
        NUMBER
    }
}
