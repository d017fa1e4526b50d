//! That faults are in order, as the contract of a function that does nothing.

ghost use Rattle.sv_book.specs.Books.{Orders};
ghost use Rattle.sv_rule.specs.RuleFaults.{first};

/// Each fault counts at its own place; what counts before a second one counts before all that the second counts before; and
/// of two faults one counts before the other.
pub fn faults_are_ordered()
    ensures { Orders first }
{}
