//! What is around a node.
#![tactic(auto)]

ghost use Rattle.std.specs.Prelude.{◌≡◌};
ghost use Rattle.sv_form_book.specs.FormKnown.{more};

use sv_form_book::{Inside, Notes, Owner, Rests};
use sv_form_rules::Words;
use sv_text::Name;

/// What is around a node, and what stood before it.
#[derive(Clone, Copy)]
pub struct Around {
    pub contract: Option<Name>,
    pub in_interface: bool,
    pub owner: Owner,
    pub notes: Notes,
    pub inside: Inside,
    pub loops: u64,
    pub blocks: u64,
    pub rests: Rests,
    pub words: Words,
}

/// One loop or block more, up to 2^64 - 1.
pub fn more(n: u64) -> u64
    ensures { result ≡ more n }
{
    if n < u64::MAX { n + 1 } else { n }
}
