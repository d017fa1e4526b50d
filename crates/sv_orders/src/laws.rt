ghost use Rattle.sv_orders.specs.LineLaws.{LinesReach, LinesAgree};

/// A line ends with its contract, holds none twice, and holds exactly the contracts that its contract reaches through bases.
pub fn lines_reach()
    ensures { LinesReach }
{}

/// Where each contract has a line, the lines are those of `linearise`.
pub fn lines_agree()
    ensures { LinesAgree }
{}
