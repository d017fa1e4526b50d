ghost use Rattle.std.specs.Prelude.{◌≡◌};
ghost use Rattle.sv_term.specs.Terms.{Term};
ghost use Rattle.sv_term_room.specs.TermRows.{terms_of};
ghost use Rattle.sv_plain_terms.specs.PlainFlags.{AreFlags};

use crate::kinds::{is_low, kind_of};
use sv_pattern::{Kind, TermNumbers};
use sv_sort_room::Cell;
use sv_term::Range;
use sv_term_room::TermRoom;

/// A room of terms, with a flag for each: whether it is plain.
#[derive(Clone, Copy)]
pub struct PlainTerms<'a> {
    room: &'a TermRoom,
    flags: &'a [bool],
    ghost flagged: { AreFlags room.now flags.now },
}

/// The terms of the room, with these flags.
pub fn over<'a>(room: &'a TermRoom, flags: &'a [bool]) -> PlainTerms<'a>
    requires { AreFlags room.now flags.now }
    ensures { terms_of result.room.now ≡ terms_of room.now }
{
    PlainTerms { room, flags }
}

impl TermNumbers for PlainTerms<'_> {
    ghost trees = { λ t. terms_of t.room.now };

    fn kind(&self, n: usize) -> Kind {
        self.room.is_sound();
        let (shape, _) = self.room.node(n);
        kind_of(shape)
    }

    fn args(&self, n: usize) -> &[usize] {
        self.room.is_sound();
        let (_, args) = self.room.node(n);
        args
    }

    fn same_shape(&self, m: usize, n: usize) -> bool {
        self.room.is_sound();
        let (first, _) = self.room.node(m);
        let (second, _) = self.room.node(n);
        first.is(second)
    }

    fn same_sort(&self, m: usize, n: usize) -> bool {
        self.room.is_sound();
        self.room.sort_of(m) == self.room.sort_of(n)
    }

    fn range(&self, n: usize) -> Option<Range> {
        self.room.is_sound();
        match self.room.sorts().cell(self.room.sort_of(n)) {
            Cell::Num(range) => Some(range),
            Cell::Bool | Cell::Arr(_) | Cell::Unit | Cell::Tup(_, _) => None,
        }
    }

    fn has_low_elements(&self, n: usize) -> bool {
        self.room.is_sound();
        match self.room.sorts().cell(self.room.sort_of(n)) {
            Cell::Arr(element) => is_low(self.room.sorts(), element),
            Cell::Num(_) | Cell::Bool | Cell::Unit | Cell::Tup(_, _) => false,
        }
    }

    fn is_plain(&self, n: usize) -> bool {
        self.room.is_sound();
        self.flags[n]
    }

    fn is_sound(&self) {
        self.room.is_sound();
    }
}
