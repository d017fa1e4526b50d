ghost use Rattle.std.specs.Prelude.{◌≡◌, ◌<◌, ◌≤◌, ◌^◌, ℕ, map, length, IfOk, MatchBool};
ghost use Rattle.sv_cert.specs.PlainLogs.{plain_entry, plain_row};
ghost use Rattle.sv_lin.specs.Eliminations.{AreNormal, HaveNoAbsurd};
ghost use Rattle.sv_lin.specs.EliminationAnswers.{placed_by, IsAnswer};
ghost use Rattle.sv_lin.specs.UnderWay.{entry_made, entries_of, given, HasAbsurd};
ghost use Rattle.sv_lin.specs.Placing.{placed};
ghost use Rattle.sv_lin.specs.Assembling.{IsSaturated, IsPointBy, IsValueBy, AreSmall, StopsWith};

use crate::answer::Eliminated;
use crate::columns::columns;
use crate::made::{Made, Origin, Outcome};
use crate::place::Place;
use crate::point::{Placing, place_columns};
use crate::rounds::eliminate_columns;
use crate::work::{Work, is_absurd};
use sqlite_items::Items;
use std::alloc::Global;
use sv_cert::{Entry, Excess, Row};
use sv_term::TermId;
use sv_text::NoMemory;

fn entry_of(made: Made) -> Entry
    ensures { plain_entry result ≡ entry_made made }
{
    match made.origin {
        Origin::Combined(m, p, n, q) => Entry::Combine(m, p, n, q, made.row),
        Origin::Divided(by, p) => Entry::Divide(by, p, made.row),
    }
}

/// The entries of the rows that were made, in order.
fn entries(alloc: Global, work: Work) -> Result<Items<Entry>, NoMemory>
    ensures { IfOk result (λ es. map plain_entry es ≡ entries_of work.made.items) }
{
    let mut left = work.into_made();
    left.reverse();
    let mut entries = Vec::new(alloc);
    while let Some(made) = left.pop() {
        entries.push(entry_of(made))?;
    }
    Ok(Items::from_vec(entries))
}

/// The column with numerator and denominator.
fn triple(place: &Place) -> (TermId, i128, i128)
    ensures { placed_by result ≡ placed place.now }
{
    (TermId(place.column), place.value.top(), place.value.under())
}

fn listed(alloc: Global, places: &[Place]) -> Result<Items<(TermId, i128, i128)>, NoMemory>
    ensures { IfOk result (λ ps. map placed_by ps ≡ map placed places.now) }
{
    let mut list = Vec::new(alloc);
    for place in places {
        list.push(triple(place))?;
    }
    Ok(Items::from_vec(list))
}

/// Whether a row is without columns and has a positive constant.
fn has_absurd(rows: &[Row]) -> bool
    ensures { MatchBool result (HasAbsurd (given rows.now)) (HaveNoAbsurd (given rows.now)) }
{
    for row in rows {
        if is_absurd(row) {
            return true;
        }
    }
    false
}

fn with_point(alloc: Global, work: Work, places: &[Place]) -> Result<Eliminated, NoMemory>
    ensures { IfOk result (λ a. IsPointBy (entries_of work.made.items) (map placed places.now) a) }
{
    let point = listed(alloc, places)?;
    let list = entries(alloc, work)?;
    Ok(Eliminated::Point(list, point))
}

fn with_value(
    alloc: Global,
    work: Work,
    item: usize,
    places: &[Place],
) -> Result<Eliminated, NoMemory>
    requires { item < 2 ^ 32 }
    ensures { IfOk result (IsValueBy (entries_of work.made.items) item (map placed places.now)) }
{
    let number = item as u32;
    let point = listed(alloc, places)?;
    let list = entries(alloc, work)?;
    Ok(Eliminated::Excess(list, Excess::Value(number, point)))
}

/// The answer where elimination has ended before its columns did.
fn stopped(alloc: Global, work: Work, outcome: Outcome) -> Result<Eliminated, NoMemory>
    requires { AreSmall outcome }
    ensures { IfOk result (λ a. StopsWith (entries_of work.made.items) outcome a) }
{
    let list = entries(alloc, work)?;
    match outcome {
        Outcome::On => Ok(Eliminated::Contradiction(list)),
        Outcome::Contradiction => Ok(Eliminated::Contradiction(list)),
        Outcome::Spent => Ok(Eliminated::Spent(list)),
        Outcome::Exceeds(i, j) => {
            let first = i as u32;
            let second = j as u32;
            Ok(Eliminated::Excess(list, Excess::Rows(first, second)))
        }
    }
}

/// The point of rows of which nothing more can be combined.
fn place(alloc: Global, rows: &[Row], work: Work, columns: &[usize]) -> Result<Eliminated, NoMemory>
    requires { IsSaturated rows.now columns.now work }
    ensures { IfOk result (λ a. (limit : ℕ) → IsAnswer (given rows.now) limit a) }
{
    let placing = place_columns(alloc, rows, &work, columns)?;
    match placing {
        Placing::All(places) => with_point(alloc, work, places.as_slice()),
        Placing::Exceeds(number, places) => with_value(alloc, work, number, places.as_slice()),
    }
}

/// Eliminates the columns of the rows, from the greatest down. The limit is what the entries may cost.
pub fn eliminate(alloc: Global, rows: &[Row], limit: u64) -> Result<Eliminated, NoMemory>
    requires few { length rows.now < 2 ^ 31 }
    requires normal { AreNormal (map plain_row rows.now) }
    requires limit { (1 ≤ limit) × (limit ≤ 200000) }
    ensures { IfOk result (λ a. IsAnswer (map plain_row rows.now) limit a) }
{
    if has_absurd(rows) {
        return Ok(Eliminated::Contradiction(Items::new(alloc)));
    }
    let mut work = Work::new(alloc);
    let columns = columns(alloc, rows)?;
    let all = columns.as_slice();
    let outcome = eliminate_columns(alloc, rows, limit, &mut work, all)?;
    match outcome {
        Outcome::On => place(alloc, rows, work, all),
        outcome => stopped(alloc, work, outcome),
    }
}
