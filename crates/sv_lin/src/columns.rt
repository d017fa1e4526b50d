ghost use Rattle.std.specs.Prelude.{◌≡◌, ◌++◌, IfOk, OnOk};
ghost use Rattle.sv_log.specs.LogEntries.{columns as columns_of};
ghost use Rattle.sv_row.specs.RowParts.{monomials};
ghost use Rattle.sv_lin.specs.UnderWay.{given, AreColumns};

use std::alloc::Global;
use sv_cert::Row;
use sv_text::NoMemory;

/// The columns of the rows, each once, rising.
pub fn columns(alloc: Global, rows: &[Row]) -> Result<Vec<usize>, NoMemory>
    ensures { IfOk result (λ cs. AreColumns (given rows.now) cs.items) }
{
    let mut columns = Vec::new(alloc);
    for row in rows {
        add_columns(row.parts.as_slice(), &mut columns)?;
    }
    columns.sort()?;
    columns.dedup();
    Ok(columns)
}

fn add_columns(parts: &[(i128, usize)], columns: &mut Vec<usize>) -> Result<(), NoMemory>
    ensures { OnOk result
        (columns.new.items ≡ columns.old.items ++ columns_of (monomials parts.now)) }
{
    for part in parts {
        columns.push(part.1)?;
    }
    Ok(())
}
