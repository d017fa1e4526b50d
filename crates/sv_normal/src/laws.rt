ghost use Rattle.sv_normal.specs.NormalLaws.{RowsStayNormal};

/// A row that is combined or divided from rows in normal form is in normal form.
pub fn rows_stay_normal()
    ensures { RowsStayNormal }
{}
