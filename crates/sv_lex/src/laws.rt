//! Laws of the definitions, each as the contract of a function without a body.

ghost use Rattle.sv_lex.specs.TokenLaws.{ListIsOne, FaultExcludesList, FaultIsOne, TokensAreSlices};

/// A text has at most one list of tokens.
pub fn list_is_one()
    ensures { ListIsOne }
{}

/// A text with a first fault has no list of tokens.
pub fn fault_excludes_list()
    ensures { FaultExcludesList }
{}

/// A text has at most one first fault.
pub fn fault_is_one()
    ensures { FaultIsOne }
{}

/// The tokens of a text are slices of it whose spans rise.
pub fn tokens_are_slices()
    ensures { TokensAreSlices }
{}
