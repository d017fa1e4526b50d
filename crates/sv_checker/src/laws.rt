ghost use Rattle.sv_checker.specs.CheckerLaws.{ClosedProves, LogsHaveRoom};

/// A checker that began with a goal and came to be closed has proved it: the goal is true in every model.
pub fn closed_proves()
    ensures { ClosedProves }
{}

/// A checker that began with the room of a log, beside what the goal takes, has room for each entry of the log as long as it accepts those before.
pub fn logs_have_room()
    ensures { LogsHaveRoom }
{}
