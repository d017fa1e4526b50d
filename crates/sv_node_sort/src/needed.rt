ghost use Rattle.std.specs.Prelude.{◌≡◌, cond, Some, None};

use sv_sort_room::Cell;

/// The sort of a node that fits.
#[derive(Clone, Copy, Drop)]
pub enum Needed {
    /// The sort of that number.
    There(usize),
    /// The sort of that cell, which may be there or not.
    Of(Cell),
}

pub(crate) fn answer(fits: bool, needed: Needed) -> Option<Needed>
    ensures { result ≡ cond fits (Some needed) None }
{
    if fits { Some(needed) } else { None }
}
