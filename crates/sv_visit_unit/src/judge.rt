ghost use Rattle.std.specs.Prelude.{◌≡◌, IfOk, OnOk};
ghost use Rattle.sv_book.specs.Visits.{opened, closed};
ghost use Rattle.sv_visit_unit.specs.UnitSites.{unit_site};

use sv_ast::{Base, Contract, FileConst, Unit};
use sv_visit_decl::FunctionJudge;

/// A text, or what stands in it and in no contract.
#[derive(Clone, Copy)]
pub enum UnitNode<'a> {
    /// The whole text.
    Text(&'a Unit),
    /// A constant outside all contracts.
    Constant(&'a FileConst),
    /// A contract or an interface.
    Contract(&'a Contract),
    /// A base of a contract.
    Base(&'a Base),
}

/// Whoever asks the rules of a group of each node of a text.
pub trait UnitJudge: FunctionJudge {
    /// Enters a node; whether no rule was broken in the node around before.
    fn enter_unit(&mut self, site: UnitNode<'_>) -> Result<bool, Self::Stop>
        ensures before { IfOk result (λ b. b ≡ (Self.state self.old).clear) }
        ensures state { OnOk result (Self.state self.new ≡ opened Self.book (unit_site site.entry) (Self.state self.old)) };

    /// Leaves a node, behind its parts.
    fn leave_unit(&mut self, site: UnitNode<'_>, before: bool) -> Result<(), Self::Stop>
        ensures { OnOk result (Self.state self.new ≡ closed Self.book (unit_site site.entry) before (Self.state self.old)) };
}
