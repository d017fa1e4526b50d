ghost use Rattle.std.specs.Prelude.{◌≡◌, []};

use std::alloc::Global;

/// Rules in order. A contract sees a book by `names`, in `specs/`.
#[derive(Drop)]
pub struct RuleBook {
    rule_names: Vec<String>,
}

impl RuleBook {
    ghost use Rattle.sv_term.specs.Book.{names};

    /// A book with no rules. It takes no memory.
    pub fn new(alloc: Global) -> RuleBook
        ensures { names result ≡ [] }
    {
        RuleBook {
            rule_names: Vec::new(alloc),
        }
    }
}
