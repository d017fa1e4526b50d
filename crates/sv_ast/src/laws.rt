//! Laws of the grammar, as the contract of a function that does nothing.

ghost use Rattle.sv_ast.specs.GrammarLaws.{TreeIsOne, NamedTreeIsOne, NotesAreOne, NamedNotesAreOne};

/// A list of tokens has one tree at most.
pub fn tree_is_one()
    ensures derived { TreeIsOne }
    ensures named { NamedTreeIsOne }
    ensures notes { NotesAreOne }
    ensures named_notes { NamedNotesAreOne }
{}
