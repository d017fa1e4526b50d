//! Questions about sorts by number.

ghost use Rattle.std.specs.Prelude.{◌≡◌, ◌<◌, ◌&&◌, length, MatchOption, false};
ghost use Rattle.sv_term.specs.Sorts.{is_bool, is_array, is_num, is_range, element, matches, same_sort, Bits};
ghost use Rattle.sv_sort_room.specs.SortCells.{nth_sort, sorts_of};
ghost use Rattle.sv_node_sort.specs.NeededSorts.{AreThere, IsElement};

use sv_sort_room::{Cell, SortRoom};

pub(crate) fn is_bool(sorts: &SortRoom, number: usize) -> bool
    requires { number < length sorts.now.cells }
    ensures { result ≡ is_bool (nth_sort (sorts_of sorts.now.cells) number) }
{
    match sorts.cell(number) {
        Cell::Bool => true,
        Cell::Num(_) | Cell::Arr(_) | Cell::Unit | Cell::Tup(_, _) => false,
    }
}

/// The number of the sort of an array's elements.
pub(crate) fn element(sorts: &SortRoom, number: usize) -> Option<usize>
    requires { number < length sorts.now.cells }
    ensures { MatchOption result (is_array (nth_sort (sorts_of sorts.now.cells) number) ≡ false)
        (IsElement sorts.now.cells number) }
{
    match sorts.cell(number) {
        Cell::Arr(element) => Some(element),
        Cell::Num(_) | Cell::Bool | Cell::Unit | Cell::Tup(_, _) => None,
    }
}

pub(crate) fn is_array(sorts: &SortRoom, number: usize) -> bool
    requires { number < length sorts.now.cells }
    ensures { result ≡ is_array (nth_sort (sorts_of sorts.now.cells) number) }
{
    match element(sorts, number) {
        Some(_) => true,
        None => false,
    }
}

/// Whether it is an array, and a term of the second sort may stand in it.
pub(crate) fn holds(sorts: &SortRoom, array: usize, number: usize) -> bool
    requires { AreThere (length sorts.now.cells) array number }
    ensures { let s = nth_sort (sorts_of sorts.now.cells) array in
        result ≡ (is_array s && matches (element s) (nth_sort (sorts_of sorts.now.cells) number)) }
{
    match element(sorts, array) {
        Some(own) => sorts.matches(own, number),
        None => false,
    }
}

/// Whether it is an array of numbers.
pub(crate) fn is_summed(sorts: &SortRoom, number: usize) -> bool
    requires { number < length sorts.now.cells }
    ensures { let s = nth_sort (sorts_of sorts.now.cells) number in
        result ≡ (is_array s && is_num (element s)) }
{
    match element(sorts, number) {
        Some(own) => sorts.is_num(own),
        None => false,
    }
}

/// Whether the two are one sort.
pub(crate) fn are_same(sorts: &SortRoom, first: usize, second: usize) -> bool
    requires { AreThere (length sorts.now.cells) first second }
    ensures { let ss = sorts_of sorts.now.cells in
        result ≡ same_sort (nth_sort ss first) (nth_sort ss second) }
{
    sorts.is_sound();
    first == second
}

pub(crate) fn is_range(signed: bool, bits: u16) -> bool
    ensures { result ≡ is_range (Bits signed bits) }
{
    let _ = signed;
    1 <= bits && bits <= 120
}
