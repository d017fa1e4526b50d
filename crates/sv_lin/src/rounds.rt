ghost use Rattle.std.specs.Prelude.{◌≡◌, ◌<◌, ◌≤ℤ◌, ◌∷◌, [], pos, length, unsigned_abs, IfOk, MatchOption};
ghost use Rattle.sv_row.specs.RowParts.{monomials, IsGreatestDivisor};
ghost use Rattle.sv_lin.specs.Eliminations.{AreNormal};
ghost use Rattle.sv_lin.specs.UnderWay.{row_made, given, AreColumns, CanBeMade};
ghost use Rattle.sv_lin.specs.Quotients.{IsIndivisible};
ghost use Rattle.sv_lin.specs.Holding.{held, IsOn, IsOnDivided, Step, ArePairsOf, AreAllPairsOf, IsQuotientOf, IsCombination, EntersRow, DividesRow, DividesAll, CombinesPair, CombinesRow, Crosses, CompletesColumn, CompletesAll};

use crate::made::{Made, Origin, Outcome};
use crate::sides::sides_of;
use crate::step::combine_rows;
use crate::work::Work;
use sqlite_items::Items;
use std::alloc::Global;
use sv_cert::Row;
use sv_num::ceil_div;
use sv_row::{divided, divisor};
use sv_text::NoMemory;

/// The greatest number that divides each number of the parts, if it is 2 or more.
fn divisor_of(parts: &[(i128, usize)]) -> Option<i128>
    ensures { MatchOption result (IsIndivisible (monomials parts.now))
        (λ d. (pos 2 ≤ℤ d) × IsGreatestDivisor (monomials parts.now) (unsigned_abs d)) }
{
    let greatest = divisor(parts);
    if 2 <= greatest && greatest < 1 << 127 {
        Some(greatest as i128)
    } else {
        None
    }
}

/// The row's quotient by the greatest divisor of its numbers, if that is 2 or more.
fn quotient(
    alloc: Global,
    rows: &[Row],
    work: &Work,
    number: usize,
) -> Result<Option<Made>, NoMemory>
    requires { number < length (held rows.now work.now) }
    ensures { IfOk result (λ q. IsQuotientOf (held rows.now work.now) number q) }
{
    let row = work.row(rows, number);
    let Some(by) = divisor_of(row.parts.as_slice()) else {
        return Ok(None);
    };
    let constant = ceil_div(row.constant, by);
    let parts = divided(alloc, by, row.parts.as_slice())?;
    Ok(Some(Made {
        origin: Origin::Divided(by, number),
        row: Row {
            constant,
            parts: Items::from_vec(parts),
        },
    }))
}

/// What two rows make; `None` where a number of it is no `i128`.
fn combination(
    alloc: Global,
    rows: &[Row],
    work: &Work,
    upper: usize,
    lower: usize,
) -> Result<Option<Made>, NoMemory>
    requires normal { AreNormal (held rows.now work.now) }
    requires pair { ArePairsOf rows.now work.now upper (lower ∷ []) }
    ensures { IfOk result (λ o. IsCombination (held rows.now work.now) upper lower o) }
{
    let first = work.row(rows, upper);
    let second = work.row(rows, lower);
    let sum = combine_rows(
        alloc,
        first.constant,
        first.parts.as_slice(),
        second.constant,
        second.parts.as_slice(),
    )?;
    let Some(sum) = sum else {
        return Ok(None);
    };
    Ok(Some(Made {
        origin: Origin::Combined(sum.m, upper, sum.n, lower),
        row: Row {
            constant: sum.constant,
            parts: Items::from_vec(sum.parts),
        },
    }))
}

/// Adds the row, unless it is in force.
fn enter(rows: &[Row], limit: u64, work: &mut Work, made: Made) -> Result<Outcome, NoMemory>
    requires way { IsOn rows.now limit work.old }
    requires sound { CanBeMade (held rows.now work.old) made }
    ensures { IfOk result (Step rows.now limit work.old work.new (EntersRow (row_made made))) }
{
    if work.holds(rows, &made.row) {
        return Ok(Outcome::On);
    }
    let Made { origin, row } = made;
    work.add(limit, origin, row)
}

/// Adds the row's quotient, if there is one.
fn divide(
    alloc: Global,
    rows: &[Row],
    limit: u64,
    work: &mut Work,
    number: usize,
) -> Result<Outcome, NoMemory>
    requires way { IsOn rows.now limit work.old }
    requires there { number < length (held rows.now work.old) }
    ensures { IfOk result (Step rows.now limit work.old work.new (DividesRow number)) }
{
    let made = quotient(alloc, rows, work, number)?;
    match made {
        Some(made) => enter(rows, limit, work, made),
        None => Ok(Outcome::On),
    }
}

/// Combines two rows, and divides what they make.
fn combine(
    alloc: Global,
    rows: &[Row],
    limit: u64,
    work: &mut Work,
    upper: usize,
    lower: usize,
) -> Result<Outcome, NoMemory>
    requires way { IsOnDivided rows.now limit work.old }
    requires pair { ArePairsOf rows.now work.old upper (lower ∷ []) }
    ensures { IfOk result (Step rows.now limit work.old work.new (CombinesPair upper lower)) }
{
    let made = combination(alloc, rows, work, upper, lower)?;
    let Some(made) = made else {
        return Ok(Outcome::Exceeds(upper, lower));
    };
    let before = work.len(rows);
    match enter(rows, limit, work, made)? {
        Outcome::On => {
            let after = work.len(rows);
            if before < after {
                divide(alloc, rows, limit, work, before)
            } else {
                Ok(Outcome::On)
            }
        }
        outcome => Ok(outcome),
    }
}

fn combine_with_lowers(
    alloc: Global,
    rows: &[Row],
    limit: u64,
    work: &mut Work,
    upper: usize,
    lowers: &[usize],
) -> Result<Outcome, NoMemory>
    requires way { IsOnDivided rows.now limit work.old }
    requires pairs { ArePairsOf rows.now work.old upper lowers.now }
    ensures { IfOk result (Step rows.now limit work.old work.new (CombinesRow upper lowers.now)) }
{
    for &lower in lowers {
        match combine(alloc, rows, limit, work, upper, lower)? {
            Outcome::On => {}
            outcome => return Ok(outcome),
        }
    }
    Ok(Outcome::On)
}

fn combine_sides(
    alloc: Global,
    rows: &[Row],
    limit: u64,
    work: &mut Work,
    uppers: &[usize],
    lowers: &[usize],
) -> Result<Outcome, NoMemory>
    requires way { IsOnDivided rows.now limit work.old }
    requires pairs { AreAllPairsOf rows.now work.old uppers.now lowers.now }
    ensures { IfOk result (Step rows.now limit work.old work.new (Crosses uppers.now lowers.now)) }
{
    for &upper in uppers {
        match combine_with_lowers(alloc, rows, limit, work, upper, lowers)? {
            Outcome::On => {}
            outcome => return Ok(outcome),
        }
    }
    Ok(Outcome::On)
}

/// Combines each two rows that can be combined at the column.
fn eliminate_column(
    alloc: Global,
    rows: &[Row],
    limit: u64,
    work: &mut Work,
    column: usize,
) -> Result<Outcome, NoMemory>
    requires { IsOnDivided rows.now limit work.old }
    ensures { IfOk result (Step rows.now limit work.old work.new (CompletesColumn column)) }
{
    let sides = sides_of(alloc, rows, work, column)?;
    combine_sides(
        alloc,
        rows,
        limit,
        work,
        sides.uppers.as_slice(),
        sides.lowers.as_slice(),
    )
}

fn divide_given(
    alloc: Global,
    rows: &[Row],
    limit: u64,
    work: &mut Work,
) -> Result<Outcome, NoMemory>
    requires way { IsOn rows.now limit work.old }
    requires start { work.old.made.items ≡ [] }
    ensures { IfOk result (Step rows.now limit work.old work.new DividesAll) }
{
    for number in 0..rows.len() {
        match divide(alloc, rows, limit, work, number)? {
            Outcome::On => {}
            outcome => return Ok(outcome),
        }
    }
    Ok(Outcome::On)
}

fn eliminate_from(
    alloc: Global,
    rows: &[Row],
    limit: u64,
    work: &mut Work,
    columns: &[usize],
) -> Result<Outcome, NoMemory>
    requires way { IsOnDivided rows.now limit work.old }
    requires columns { AreColumns (given rows.now) columns.now }
    ensures { IfOk result (Step rows.now limit work.old work.new CompletesAll) }
{
    let mut left = columns;
    while let Some((&column, rest)) = left.split_last() {
        match eliminate_column(alloc, rows, limit, work, column)? {
            Outcome::On => {}
            outcome => return Ok(outcome),
        }
        left = rest;
    }
    Ok(Outcome::On)
}

/// Divides each row, and combines each two that can be combined, the columns from the greatest down.
pub fn eliminate_columns(
    alloc: Global,
    rows: &[Row],
    limit: u64,
    work: &mut Work,
    columns: &[usize],
) -> Result<Outcome, NoMemory>
    requires way { IsOn rows.now limit work.old }
    requires start { work.old.made.items ≡ [] }
    requires columns { AreColumns (given rows.now) columns.now }
    ensures { IfOk result (Step rows.now limit work.old work.new CompletesAll) }
{
    match divide_given(alloc, rows, limit, work)? {
        Outcome::On => eliminate_from(alloc, rows, limit, work, columns),
        outcome => Ok(outcome),
    }
}
