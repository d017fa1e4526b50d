ghost use Rattle.std.specs.Prelude.{◌≡◌, ◌↔◌, IsTrue};
ghost use Rattle.sv_sort_room.specs.CellCodes.{mixed, code_of};

use sv_term::Range;

/// A sort, by the numbers of its parts. A tuple that has parts is its first part and the tuple of the others.
#[derive(Clone, Copy, Debug, PartialEq, Eq, Drop)]
pub enum Cell {
    Num(Range),
    Bool,
    Arr(usize),
    /// The tuple without parts.
    Unit,
    Tup(usize, usize),
}

const FACTOR: usize = 0x9E37_79B9_7F4A_7C15;

/// Whether the two are one.
pub(crate) fn same_cell(a: Cell, b: Cell) -> bool
    ensures { IsTrue result ↔ (a ≡ b) }
{
    a == b
}

pub(crate) fn cell_code(cell: Cell) -> usize
    ensures { result ≡ code_of cell }
{
    match cell {
        Cell::Num(Range::Any) => 0,
        Cell::Num(Range::Low) => 1,
        Cell::Num(Range::Bits(signed, bits)) => mix(4 + signed as usize, bits as usize),
        Cell::Bool => 2,
        Cell::Unit => 3,
        Cell::Arr(element) => mix(6, element),
        Cell::Tup(first, rest) => mix(mix(7, first), rest),
    }
}

fn mix(code: usize, number: usize) -> usize
    ensures { result ≡ mixed code number }
{
    code.wrapping_mul(FACTOR).wrapping_add(number)
}
