ghost use Rattle.sv_log_cases.specs.LogExamples.{ExamplesHold};

/// A log worked by hand is accepted and closed at its cost, and an entry for each cause is rejected for it.
pub fn examples_hold()
    ensures { ExamplesHold }
{}
