ghost use Rattle.sv_branch.specs.BranchLaws.{StepsAreAfter, QuestionsAgree};

/// Each step does to the state that a branch stands for what the entry does.
pub fn steps_are_after()
    ensures { StepsAreAfter }
{}

/// What is asked of a branch is true of the state that it stands for.
pub fn questions_agree()
    ensures { QuestionsAgree }
{}
