ghost use Rattle.std.specs.Prelude.{◌≡◌, IfOk, OnOk};
ghost use Rattle.sv_plain.specs.ShownExprs.{kind_of};
ghost use Rattle.sv_book.specs.Books.{Book};
ghost use Rattle.sv_book.specs.Visits.{State, opened, closed};
ghost use Rattle.sv_visit.specs.Sites.{Expression, Site};
ghost use Rattle.sv_visit.specs.ExprSites.{site_of};

use sv_ast::{Args, Plain, TypeExpr};
use sv_plain::view::View;

/// What an expression is for what stands around it.
#[derive(Clone, Copy, Debug, PartialEq, Eq)]
pub enum Role {
    /// A part of something.
    Inner,
    /// A statement, or a part of the header of a `for`.
    Statement,
}

/// A node that may stand in an expression and is none.
#[derive(Clone, Copy)]
pub enum Use<'a> {
    /// A type, with its brackets.
    Type(&'a TypeExpr),
    /// A type without brackets.
    Plain(&'a Plain),
    /// The arguments of a call.
    Args(&'a Args),
}

/// Whoever asks the rules of a group of each node. A node is entered before its parts and left behind them.
pub trait Judge {
    /// Why it may give up.
    type Stop;

    /// What is known at a node.
    ghost Known: { Type 0 };

    /// The rules.
    ghost Rule: { Type 0 };

    /// What a broken rule reads.
    ghost Fault: { Type 0 };

    /// The group.
    ghost book: { Book Known Site Rule Fault };

    /// What it knows.
    ghost state: { Self → State Known Fault };

    /// Enters an expression; whether no rule was broken in the node around before.
    fn enter_expr(&mut self, role: Role, view: View<'_>) -> Result<bool, Self::Stop>
        ensures before { IfOk result (λ b. b ≡ (state self.old).clear) }
        ensures state { OnOk result (state self.new ≡ opened book (Expression role view.entry.spot (kind_of view.entry.kind)) (state self.old)) };

    /// Leaves an expression, behind its parts.
    fn leave_expr(&mut self, role: Role, view: View<'_>, before: bool) -> Result<(), Self::Stop>
        ensures { OnOk result (state self.new ≡ closed book (Expression role view.entry.spot (kind_of view.entry.kind)) before (state self.old)) };

    /// Enters a type or arguments; whether no rule was broken in the node around before.
    fn enter_use(&mut self, site: Use<'_>) -> Result<bool, Self::Stop>
        ensures before { IfOk result (λ b. b ≡ (state self.old).clear) }
        ensures state { OnOk result (state self.new ≡ opened book (site_of site.entry) (state self.old)) };

    /// Leaves a type or arguments, behind their parts.
    fn leave_use(&mut self, site: Use<'_>, before: bool) -> Result<(), Self::Stop>
        ensures { OnOk result (state self.new ≡ closed book (site_of site.entry) before (state self.old)) };
}
