ghost use Rattle.std.specs.Prelude.{ℤ, ◌≡◌, ◌<◌, length, slice_get, Some, IfOk, OnOk, MatchOption};
ghost use Rattle.std.specs.List.{Contains};
ghost use Rattle.sv_cert.specs.PlainLogs.{plain_row};
ghost use Rattle.sv_point.specs.NearestPoints.{IsRowOf};
ghost use Rattle.sv_lin.specs.Eliminations.{IsNormalRow};
ghost use Rattle.sv_lin.specs.UnderWay.{force, AreReadable, AreSides, AddsSide};

use crate::work::Work;
use std::alloc::Global;
use sv_cert::Row;
use sv_text::NoMemory;

/// The numbers of the rows of a column: those with a positive number there, and those with a negative one.
#[derive(Drop)]
pub struct Sides {
    pub uppers: Vec<usize>,
    pub lowers: Vec<usize>,
}

/// The row's number at the column, if that is its greatest.
pub fn factor_at(row: &Row, column: usize) -> Option<i128>
    requires { IsNormalRow (plain_row row.now) }
    ensures { MatchOption result ((k : ℤ) → IsRowOf column k (plain_row row.now) → ⊥)
        (λ k. IsRowOf column k (plain_row row.now)) }
{
    let Some((&(factor, greatest), _)) = row.parts.as_slice().split_last() else {
        return None;
    };
    if greatest == column {
        Some(factor)
    } else {
        None
    }
}

impl Sides {
    /// Puts the number of a row on the side of its factor; a row without factor is left out.
    fn add(&mut self, number: usize, factor: Option<i128>) -> Result<(), NoMemory>
        ensures { OnOk result (AddsSide number factor self.old.uppers.items self.old.lowers.items
            self.new.uppers.items self.new.lowers.items) }
    {
        match factor {
            Some(factor) if factor > 0 => self.uppers.push(number)?,
            Some(_) => self.lowers.push(number)?,
            None => {}
        }
        Ok(())
    }
}

/// The rows in force of which the column is the greatest.
pub fn sides_of(alloc: Global, rows: &[Row], work: &Work, column: usize) -> Result<Sides, NoMemory>
    requires { AreReadable rows.now work.now.made.items }
    ensures { IfOk result (λ s. AreSides (force rows.now work.now.made.items) column
        (length (force rows.now work.now.made.items)) s.uppers.items s.lowers.items) }
{
    let mut sides = Sides {
        uppers: Vec::new(alloc),
        lowers: Vec::new(alloc),
    };
    for number in 0..work.len(rows) {
        sides.add(number, factor_at(work.row(rows, number), column))?;
    }
    Ok(sides)
}
