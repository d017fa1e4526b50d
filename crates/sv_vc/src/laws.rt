ghost use Rattle.sv_vc.specs.ConditionsExact.{ConditionsAreExact};

/// The condition of a label is valid exactly where no run of the command fails at the label.
pub fn conditions_are_exact()
    ensures { ConditionsAreExact }
{}
