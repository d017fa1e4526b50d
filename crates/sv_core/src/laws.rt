ghost use Rattle.sv_core.specs.FormedExamples.{SetterIsFormed};

/// A contract with a variable, a modifier, a function with a pre- and a postcondition, and an invariant is formed.
pub fn a_contract_is_formed()
    ensures { SetterIsFormed }
{}
