ghost use Rattle.std.specs.Prelude.{◌≡◌, IfOk, OnOk};
ghost use Rattle.sv_book.specs.Visits.{opened, closed};
ghost use Rattle.sv_visit_simple.specs.SimpleSites.{simple_site};

use sv_ast::{Action, Decl, Note, Simple, Slot};
use sv_visit::Judge;

/// A node of an annotation or of a statement that ends with `;`, which is no expression and no type.
#[derive(Clone, Copy)]
pub enum SimpleNode<'a> {
    /// An annotation.
    Note(&'a Note),
    /// An expression, an assignment or a `delete` that ends with `;` or stands in the header of a `for`.
    Action(&'a Action),
    /// A declaration of a local variable.
    Decl(&'a Decl),
    /// A slot of a tuple.
    Slot(&'a Slot),
    /// A statement that ends with `;`, without it.
    Simple(&'a Simple),
    /// A body without braces.
    Bare(&'a Simple),
}

/// Whoever asks the rules of a group of these nodes too.
pub trait SimpleJudge: Judge {
    /// Enters a node; whether no rule was broken in the node around before.
    fn enter_simple(&mut self, site: SimpleNode<'_>) -> Result<bool, Self::Stop>
        ensures before { IfOk result (λ b. b ≡ (Self.state self.old).clear) }
        ensures state { OnOk result (Self.state self.new ≡ opened Self.book (simple_site site.entry) (Self.state self.old)) };

    /// Leaves a node, behind its parts.
    fn leave_simple(&mut self, site: SimpleNode<'_>, before: bool) -> Result<(), Self::Stop>
        ensures { OnOk result (Self.state self.new ≡ closed Self.book (simple_site site.entry) before (Self.state self.old)) };
}
