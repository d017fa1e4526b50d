ghost use Rattle.std.specs.Prelude.{◌≡◌, ◌<◌, List, length};
ghost use Rattle.sv_term.specs.FactRules.{is_low};
ghost use Rattle.sv_sort_room.specs.SortCells.{nth_sort, sorts_of};
ghost use Rattle.sv_term.specs.Sorts.{Sort};
ghost use Rattle.sv_term_room.specs.TermRows.{shape_by};
ghost use Rattle.sv_pattern.specs.TermKinds.{kind_of};

use sv_pattern::{Kind, Name};
use sv_sort_room::{Cell, SortRoom};
use sv_term::Range;
use sv_term_room::Shape;

// What the node of a shape is, as far as rules ask.
pub(crate) fn kind_of(shape: Shape) -> Kind
    ensures { (ss : List Sort) → result ≡ kind_of (shape_by ss shape) }
{
    match shape {
        Shape::Lit(negative, m) => Kind::Lit(negative, m),
        Shape::Truth(b) => Kind::Truth(b),
        Shape::Var(_, _) => Kind::Var,
        Shape::Add => Kind::Bare(Name::Add),
        Shape::Sub => Kind::Bare(Name::Sub),
        Shape::Mul => Kind::Bare(Name::Mul),
        Shape::Div => Kind::Bare(Name::Div),
        Shape::Mod => Kind::Bare(Name::Mod),
        Shape::Wrap(_, _) => Kind::Wrap,
        Shape::Le => Kind::Bare(Name::Le),
        Shape::Eq => Kind::Bare(Name::Eq),
        Shape::Not => Kind::Bare(Name::Not),
        Shape::And => Kind::Bare(Name::And),
        Shape::Or => Kind::Bare(Name::Or),
        Shape::Ite => Kind::Bare(Name::Ite),
        Shape::Sel => Kind::Bare(Name::Sel),
        Shape::Sto => Kind::Bare(Name::Sto),
        Shape::Const(_) => Kind::Const,
        Shape::Mix => Kind::Bare(Name::Mix),
        Shape::Tup(_) => Kind::Tup,
        Shape::Get(k) => Kind::Get(k),
        Shape::Sum => Kind::Bare(Name::Sum),
    }
}

// Whether the sort is one of numbers from 0 on.
pub(crate) fn is_low(sorts: &SortRoom, number: usize) -> bool
    requires { number < length sorts.now.cells }
    ensures { result ≡ is_low (nth_sort (sorts_of sorts.now.cells) number) }
{
    match sorts.cell(number) {
        Cell::Num(Range::Low) | Cell::Num(Range::Bits(false, _)) => true,
        Cell::Num(Range::Any) | Cell::Num(Range::Bits(true, _)) => false,
        Cell::Bool | Cell::Arr(_) | Cell::Unit | Cell::Tup(_, _) => false,
    }
}
