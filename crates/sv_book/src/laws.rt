//! The law of passes, as the contract of a function that does nothing.

ghost use Rattle.sv_book.specs.Books.{Book};
ghost use Rattle.sv_book.specs.VisitLaws.{LeastIsFound};

/// A group of rules over nodes of any kind.
pub trait Group {
    /// What is known at a node.
    ghost Known: { Type 0 };

    /// The nodes.
    ghost Node: { Type 0 };

    /// The rules.
    ghost Rule: { Type 0 };

    /// What a broken rule reads.
    ghost Fault: { Type 0 };

    /// The rules, and what is known where they are asked.
    ghost book: { Book Known Node Rule Fault };
}

/// A pass ends with the fault that counts.
pub fn least_is_found<G: Group>()
    ensures { LeastIsFound G.book }
{}
