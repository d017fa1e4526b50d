ghost use Rattle.sv_lin.specs.WorkedRows.{WorkedRows};
ghost use Rattle.sv_lin.specs.Completeness.{CompleteAreSaturated};
ghost use Rattle.sv_lin.specs.Renumbering.{RenumberedAreAccepted};

/// Entries that are accepted after rows are accepted, renumbered, in a log that holds these rows among other items.
pub fn renumbered_are_accepted()
    ensures { RenumberedAreAccepted }
{}

/// Where each row above 0 at its greatest column was combined with each row below 0 there, nothing more can be combined.
pub fn complete_are_saturated()
    ensures { CompleteAreSaturated }
{}

/// What the answers are for a few rows worked by hand.
pub fn rows_worked_by_hand()
    ensures { WorkedRows }
{}
