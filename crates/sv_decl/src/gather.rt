//! What the nodes of a list declare.
#![tactic(auto)]

ghost use Rattle.std.specs.Prelude.{◌≡◌, Option, IfOk};
ghost use Rattle.std.specs.List.{filter_map};

use sqlite_items::Items;
use std::alloc::Global;
use sv_text::NoMemory;

/// A node that may declare an `R`.
pub trait Declares<R> {
    ghost declared: { Self → Option R };

    /// What it declares.
    fn declare(&self, alloc: Global) -> Result<Option<R>, NoMemory>
        ensures { IfOk result (λ r. r ≡ declared self.now) };
}

/// What the nodes of a list declare, in order.
pub fn gather<R: Drop, T: Declares<R>>(alloc: Global, list: &[T]) -> Result<Items<R>, NoMemory>
    ensures { IfOk result (λ r. r ≡ filter_map T.declared list.now) }
{
    let mut rows = Items::new(alloc);
    for node in list {
        if let Some(row) = node.declare(alloc)? {
            rows.push(row)?;
        }
    }
    Ok(rows)
}
