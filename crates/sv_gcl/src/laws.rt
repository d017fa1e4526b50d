ghost use Rattle.sv_gcl.specs.Commands.{UnsetStays};
ghost use Rattle.sv_gcl.specs.WorkedRuns.{RunsAreWorked};

/// A run that ends leaves each variable alone that its command neither sets nor forgets.
pub fn unset_stays()
    ensures { UnsetStays }
{}

/// Runs that were worked out by hand come to what they should.
pub fn runs_are_worked()
    ensures { RunsAreWorked }
{}
