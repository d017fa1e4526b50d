ghost use Rattle.std.specs.Prelude.{◌≡◌, IfOk};
ghost use Rattle.std.specs.Prelude.{nat_eq};
ghost use Rattle.std.specs.Ordering.{on};
ghost use Rattle.std.specs.Cmp.{partial_equiv_from_equiv, on_equiv, nat_eq_equiv};
ghost use Rattle.std.specs.Cmp.Lexicographic.{pointwise, lists_per, lists_equiv};
ghost use Rattle.std.specs.Hash as fed;
ghost use Rattle.std.specs.Hash.{items_Alike, same_Alike};
ghost use Rattle.sv_term.specs.Ids.{id_decides};
ghost use Rattle.sv_term.specs.declared.node.TermId.{TermId};

use crate::node::TermId;
use smallvec::SmallVec;
use std::alloc::{AllocError, Global};
use std::hash::{Hash, Hasher};
use std::marker::Model;
use sv_text::NoMemory;

/// The arguments of a tuple. A contract sees the list of them. Up to four need no allocation.
#[derive(Drop)]
pub struct Args {
    ids: SmallVec<TermId, 4>,
}

impl Model for Args {
    ghost use Rattle.std.specs.Prelude.{List};
    ghost use Rattle.sv_term.specs.declared.node.TermId.{TermId};

    ghost Value = { List TermId };

    ghost view = { λ a. a.ids.items };
}

impl Args {
    /// The terms as arguments, in order.
    pub fn of(alloc: Global, ids: &[TermId]) -> Result<Args, NoMemory>
        ensures { IfOk result (λ a. a ≡ ids.now) }
    {
        Ok(Args {
            ids: SmallVec::from_slice(alloc, ids)?,
        })
    }

    /// The terms, in order.
    pub fn as_slice(&self) -> &[TermId]
        ensures { result.now ≡ self.now }
    {
        self.ids.as_slice()
    }
}

impl PartialEq for Args {
    ghost eq = { pointwise (on (λ (k : TermId). k.0) nat_eq) };

    ghost laws = { lists_per (partial_equiv_from_equiv (on_equiv (λ (k : TermId). k.0) nat_eq_equiv)) };

    fn eq(&self, other: &Self) -> bool {
        self.ids == other.ids
    }
}

impl Eq for Args {
    ghost laws = { lists_equiv (on_equiv (λ (k : TermId). k.0) nat_eq_equiv) };
}

impl Hash for Args {
    ghost hash_input = { fed.slice (λ (k : TermId). fed.usize k.0) };

    ghost respects_eq = { (items_Alike (same_Alike (λ (k : TermId). fed.usize k.0) id_decides)).fed };

    fn hash<H: Hasher>(&self, state: &mut H) {
        self.ids.hash(state);
    }
}

impl Clone for Args {
    ghost is_clone = { λ a b. b ≡ a };

    fn clone(&self) -> Result<Args, AllocError> {
        Ok(Args {
            ids: self.ids.clone()?,
        })
    }
}
