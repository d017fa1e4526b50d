ghost use Rattle.sv_local_names.specs.ScopeLaws.{InnermostIsFound, ScopeIsItsOwn, NewestIsFound};

/// What is found is the last of the name, and nothing is found exactly where no local has it.
pub fn innermost_is_found()
    ensures { InnermostIsFound }
{}

/// A scope that was entered, and in which names were declared, leaves what was there before.
pub fn scope_is_its_own()
    ensures { ScopeIsItsOwn }
{}

/// A local hides what has its name, and nothing else.
pub fn newest_is_found()
    ensures { NewestIsFound }
{}
