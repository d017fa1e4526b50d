ghost use Rattle.sv_term_forms.specs.FormLists.{FormsAreNormal};
ghost use Rattle.sv_term_forms.specs.NextTerms.{EachIsTold};

/// A row that is the form of a fact is in normal form.
pub fn forms_are_normal()
    ensures { FormsAreNormal }
{}

/// Of every fitting term over the terms of a list a `FormNode` tells, so `push` takes in each of them.
pub fn each_is_told()
    ensures { EachIsTold }
{}
