ghost use Rattle.sv_first_judge.specs.SafetyLaws.{FormsAreLeft, VerifiedIsSafe};

/// A contract all of whose functions are verified is safe in every history.
pub fn verified_is_safe()
    ensures { VerifiedIsSafe }
{}

/// The judge's forms are what a run without revert leaves.
pub fn forms_are_left()
    ensures { FormsAreLeft }
{}
