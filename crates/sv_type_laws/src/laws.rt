ghost use Rattle.sv_type_laws.specs.TreeLaws.{ReadsBack, LeavesOthers, KeepsType, ReadsItsType, SumMoves, TestIsExact, DefaultsFit, ClearedFits, CopiesRead, AssignmentsRead, CopiesInto};

/// Storage is read and written at paths.
pub fn reading_and_writing()
    ensures back { ReadsBack }
    ensures others { LeavesOthers }
    ensures kept { KeepsType }
    ensures of_type { ReadsItsType }
    ensures sum { SumMoves }
    ensures test { TestIsExact }
{}

/// Storage is cleared and copied as a whole.
pub fn copying()
    ensures defaults { DefaultsFit }
    ensures cleared { ClearedFits }
    ensures copies { CopiesRead }
    ensures assignments { AssignmentsRead }
    ensures into_memory { CopiesInto }
{}
