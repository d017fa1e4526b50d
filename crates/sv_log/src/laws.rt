ghost use Rattle.sv_log.specs.LogLaws.{ClosedIsValid, CausesAreExact};

/// A log that is accepted from a condition and closed makes the condition true in every model.
pub fn closed_is_valid()
    ensures { ClosedIsValid }
{}

/// An entry with a first fault isn't allowed, and has no other first fault.
pub fn causes_are_exact()
    ensures { CausesAreExact }
{}
