ghost use Rattle.std.specs.Prelude.{◌≡◌, ◌<◌, ◌<ℤ◌, pos, ℕ, length, IfOk, MatchOption, MatchResult, ◌⊎◌};
ghost use Rattle.std.specs.List.{Contains};
ghost use Rattle.sv_lin.specs.Eliminations.{HaveNoAbsurd};
ghost use Rattle.sv_lin.specs.Completeness.{AreComplete};
ghost use Rattle.sv_lin.specs.declared.point.Limit.TheVariants.{At, Exceeds};
ghost use Rattle.sv_lin.specs.UnderWay.{force, AreReadable, RiseFrom};
ghost use Rattle.sv_lin.specs.Holding.{held};
ghost use Rattle.sv_lin.specs.Placing.{point_of, AreOfColumns, CanBePlaced, AreNumbersOf, Tightest, Tightens, IsNotAbove, IsNotBelow, Chooses, IsWithin, IsFound, Places};

use crate::place::{Place, bound_at};
use crate::sides::sides_of;
use crate::work::Work;
use std::alloc::Global;
use std::cmp::Ordering;
use sv_cert::Row;
use sv_fraction::Fraction;
use sv_text::NoMemory;

/// The bound of a side that goes furthest, or the number of a row whose bound is too large.
#[derive(Clone, Copy, Debug)]
pub enum Limit {
    Unlimited,
    At(Fraction),
    Exceeds(usize),
}

#[derive(Clone, Copy, Debug)]
pub enum Side {
    Upper,
    Lower,
}

/// The places of all columns, or those below the greatest of a row whose bound is too large.
#[derive(Drop)]
pub enum Placing {
    All(Vec<Place>),
    Exceeds(usize, Vec<Place>),
}

/// Of the bound so far and another the lesser upper one, or the greater lower one.
fn tighter(side: Side, best: Limit, bound: Fraction) -> Limit
    ensures { Tightens side best bound result }
{
    match best {
        Limit::At(other) => match (bound.compare(&other), side) {
            (Ordering::Less, Side::Upper) | (Ordering::Greater, Side::Lower) => Limit::At(bound),
            _ => Limit::At(other),
        },
        _ => Limit::At(bound),
    }
}

/// The least of upper bounds, or the greatest of lower ones.
fn tightest(rows: &[Row], work: &Work, places: &[Place], side: Side, numbers: &[usize]) -> Limit
    requires placed { CanBePlaced rows.now work.now places.now }
    requires there { (x : ℕ) × AreNumbersOf rows.now work.now x numbers.now }
    ensures { Tightest rows.now work.now places.now side numbers.now result }
{
    let mut best = Limit::Unlimited;
    for &number in numbers {
        match bound_at(work.row(rows, number), places) {
            Some(bound) => best = tighter(side, best, bound),
            None => return Limit::Exceeds(number),
        }
    }
    best
}

fn above_zero(limit: Limit) -> Option<Fraction>
    ensures { MatchOption result (IsNotAbove limit) (λ f. (limit ≡ At f) × (pos 0 <ℤ f.top)) }
{
    match limit {
        Limit::At(bound) => { if bound.top() > 0 { Some(bound) } else { None } }
        _ => None,
    }
}

fn below_zero(limit: Limit) -> Option<Fraction>
    ensures { MatchOption result (IsNotBelow limit) (λ f. (limit ≡ At f) × (f.top <ℤ pos 0)) }
{
    match limit {
        Limit::At(bound) => { if bound.top() < 0 { Some(bound) } else { None } }
        _ => None,
    }
}

/// The fraction nearest to 0 between a lower and an upper bound.
fn nearest(lower: Limit, upper: Limit) -> Fraction
    ensures { Chooses lower upper result }
{
    let above = above_zero(lower);
    if let Some(bound) = above {
        return bound;
    }
    let below = below_zero(upper);
    match below {
        Some(bound) => bound,
        None => Fraction::zero(),
    }
}

/// The fraction nearest to 0 between the bounds, or the row whose bound is too large.
fn between(lower: Limit, upper: Limit) -> Result<Fraction, usize>
    ensures { MatchResult result (λ f. Chooses lower upper f × IsWithin lower × IsWithin upper)
        (λ n. (lower ≡ Exceeds n) ⊎ (upper ≡ Exceeds n)) }
{
    match lower {
        Limit::Exceeds(number) => Err(number),
        _ => match upper {
            Limit::Exceeds(number) => Err(number),
            _ => Ok(nearest(lower, upper)),
        },
    }
}

/// The column's fraction, or the row whose bound there is too large.
fn fraction_at(
    alloc: Global,
    rows: &[Row],
    work: &Work,
    places: &[Place],
    column: usize,
) -> Result<Result<Fraction, usize>, NoMemory>
    requires { CanBePlaced rows.now work.now places.now }
    ensures { IfOk result (IsFound (held rows.now work.now) (point_of places.now) column) }
{
    let sides = sides_of(alloc, rows, work, column)?;
    let upper = tightest(rows, work, places, Side::Upper, sides.uppers.as_slice());
    let lower = tightest(rows, work, places, Side::Lower, sides.lowers.as_slice());
    Ok(between(lower, upper))
}

/// The nearest point of the rows in force, column by column.
pub fn place_columns(
    alloc: Global,
    rows: &[Row],
    work: &Work,
    columns: &[usize],
) -> Result<Placing, NoMemory>
    requires readable { AreReadable rows.now work.now.made.items }
    requires rising { RiseFrom 0 columns.now }
    requires complete { AreComplete (force rows.now work.now.made.items)
        × HaveNoAbsurd (force rows.now work.now.made.items) }
    requires within { AreOfColumns (force rows.now work.now.made.items) columns.now }
    ensures { IfOk result (λ p. Places (force rows.now work.now.made.items) columns.now p) }
{
    let mut places: Vec<Place> = Vec::new(alloc);
    for &column in columns {
        let found = fraction_at(alloc, rows, work, places.as_slice(), column)?;
        match found {
            Ok(value) => places.push(Place { column, value })?,
            Err(number) => return Ok(Placing::Exceeds(number, places)),
        }
    }
    Ok(Placing::All(places))
}
