ghost use Rattle.std.specs.Prelude.{◌≡◌, ◌+◌, ◌<◌, ◌^◌, [], pos, ◌<ℤ◌, length, slice_get, Some, IfOk, MatchBool};
ghost use Rattle.std.specs.List.{Contains};
ghost use Rattle.sv_log.specs.LogEntries.{cost_of_log};
ghost use Rattle.sv_log.specs.Logs.{Bound, IsAbsurd};
ghost use Rattle.sv_cert.specs.PlainLogs.{plain_row};
ghost use Rattle.sv_lin.specs.UnderWay.{entry_by, entries_of, rows_of, force, given, AddsEntry};

use crate::made::{Made, Origin, Outcome};
use std::alloc::Global;
use sv_cert::Row;
use sv_text::NoMemory;

/// The rows that were made so far, and what their entries cost.
#[derive(Drop)]
pub struct Work {
    made: Vec<Made>,
    cost: u64,
    pub ghost counted: { cost ≡ cost_of_log (entries_of made.items) },
}

impl Work {
    pub fn new(alloc: Global) -> Work
        ensures { result.made.items ≡ [] }
    {
        Work {
            made: Vec::new(alloc),
            cost: 0,
        }
    }

    /// How many rows are in force.
    pub fn len(&self, rows: &[Row]) -> usize
        requires { length rows.now + length self.now.made.items < 2 ^ 64 }
        ensures { result ≡ length (force rows.now self.now.made.items) }
    {
        rows.len() + self.made.len()
    }

    /// The row of that number.
    pub fn row<'a>(&'a self, rows: &'a [Row], number: usize) -> &'a Row
        requires { number < length (force rows.now self.now.made.items) }
        ensures { slice_get (force rows.now self.now.made.items) number ≡ Some (plain_row result.now) }
    {
        if number < rows.len() {
            &rows[number]
        } else {
            &self.made[number - rows.len()].row
        }
    }

    /// Whether the row is in force.
    pub fn holds(&self, rows: &[Row], row: &Row) -> bool
        ensures { MatchBool result (Contains (force rows.now self.now.made.items) (plain_row row.now))
            (Contains (force rows.now self.now.made.items) (plain_row row.now) → ⊥) }
    {
        is_given(row, rows) || is_made(row, &self.made)
    }

    /// Adds a row, and says whether it ends the elimination.
    pub fn add(&mut self, limit: u64, origin: Origin, row: Row) -> Result<Outcome, NoMemory>
        requires { self.old.cost < 200000 }
        ensures { IfOk result (λ o. AddsEntry limit (entries_of self.old.made.items)
            (entries_of self.new.made.items) (entry_by origin (plain_row row)) o) }
    {
        let cost = self.cost + 1 + (row.parts.len() / 16) as u64;
        let absurd = is_absurd(&row);
        self.made.push(Made { origin, row })?;
        self.cost = cost;
        if absurd {
            Ok(Outcome::Contradiction)
        } else if cost < limit {
            Ok(Outcome::On)
        } else {
            Ok(Outcome::Spent)
        }
    }

    /// The rows that were made.
    pub fn into_made(self) -> Vec<Made>
        ensures { result.items ≡ self.made.items }
    {
        self.made
    }
}

fn is_given(row: &Row, rows: &[Row]) -> bool
    ensures { MatchBool result (Contains (given rows.now) (plain_row row.now))
        (Contains (given rows.now) (plain_row row.now) → ⊥) }
{
    for other in rows {
        if is_same(other, row) {
            return true;
        }
    }
    false
}

fn is_made(row: &Row, made: &[Made]) -> bool
    ensures { MatchBool result (Contains (rows_of made.now) (plain_row row.now))
        (Contains (rows_of made.now) (plain_row row.now) → ⊥) }
{
    for other in made {
        if is_same(&other.row, row) {
            return true;
        }
    }
    false
}

fn is_same(a: &Row, b: &Row) -> bool
    ensures { MatchBool result (plain_row a.now ≡ plain_row b.now)
        (plain_row a.now ≡ plain_row b.now → ⊥) }
{
    a.constant == b.constant && a.parts.as_slice() == b.parts.as_slice()
}

/// Whether the row is without columns and has a positive constant.
pub fn is_absurd(row: &Row) -> bool
    ensures { MatchBool result (IsAbsurd (Bound (plain_row row.now)))
        (IsAbsurd (Bound (plain_row row.now)) → ⊥) }
{
    row.constant > 0 && row.parts.is_empty()
}
