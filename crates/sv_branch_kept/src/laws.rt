ghost use Rattle.sv_branch_kept.specs.KeptBranches.{StepsKeep, AsksAreMet};

/// A branch without items and splits is sound, and each step from a sound branch leaves a sound one.
pub fn steps_keep()
    ensures { StepsKeep }
{}

/// What the questions to a branch ask of it, a sound branch has.
pub fn asks_are_met()
    ensures { AsksAreMet }
{}
