ghost use Rattle.sv_cli.specs.DueLaw.{DueIsOne};
ghost use Rattle.sv_cli.specs.KeywordLaw.{KeywordsAreOne};

/// What is due for a text, and how the program ends, are functions of the text.
pub fn due_is_one()
    ensures { DueIsOne }
{}

/// The first form and the grammar agree on which words are no names.
pub fn keywords_are_one()
    ensures { KeywordsAreOne }
{}
