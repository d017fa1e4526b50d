ghost use Rattle.std.specs.Prelude.{◌≡◌, ◌++◌, ◌∷◌, [], ◌+ℤ◌, ◌*ℤ◌, IfOk, MatchOption, OnOk};
ghost use Rattle.sv_log.specs.LogRows.{monomial};
ghost use Rattle.sv_num.specs.Range.{IsI128};
ghost use Rattle.sv_row.specs.RowParts.{monomials, AreRising, FitsMultiples, sum_of_multiples};
ghost use Rattle.sv_row.specs.SumSteps.{part, AddsParts, AddsSum, FitsBoth};

use std::alloc::Global;
use std::cmp::Ordering;
use sv_num::{combine, mul};
use sv_text::NoMemory;

/// The parts of `m` times a row and `n` times another, together; `None` where a number of a multiple or of the sum is no `i128`.
pub fn combined(
    alloc: Global,
    m: i128,
    own: &[(i128, usize)],
    n: i128,
    other: &[(i128, usize)],
) -> Result<Option<Vec<(i128, usize)>>, NoMemory>
    requires { AreRising (monomials own.now) × AreRising (monomials other.now) }
    ensures { IfOk result
        (λ sum. MatchOption sum (FitsMultiples m (monomials own.now) n (monomials other.now) → ⊥)
        (λ made. FitsMultiples m (monomials own.now) n (monomials other.now)
        × (monomials made.items ≡ sum_of_multiples m (monomials own.now) n (monomials other.now)))) }
{
    let mut made = Vec::new(alloc);
    if add_sum(m, own, n, other, &mut made)? {
        Ok(Some(made))
    } else {
        Ok(None)
    }
}

// Adds the sum to what is made, column by column; false where a number is no `i128`.
fn add_sum(
    m: i128,
    own: &[(i128, usize)],
    n: i128,
    other: &[(i128, usize)],
    made: &mut Vec<(i128, usize)>,
) -> Result<bool, NoMemory>
    requires { AreRising (monomials own.now) × AreRising (monomials other.now) }
    ensures { IfOk result (AddsSum m own.now n other.now made.old.items made.new.items) }
{
    match (own.split_first(), other.split_first()) {
        (None, None) => Ok(true),
        (Some((&(k, x), rest)), None) => {
            if add_own(m, k, x, made)? {
                add_sum(m, rest, n, other, made)
            } else {
                Ok(false)
            }
        }
        (None, Some((&(l, y), rest))) => {
            if add_other(n, l, y, made)? {
                add_sum(m, own, n, rest, made)
            } else {
                Ok(false)
            }
        }
        (Some((&(k, x), own_rest)), Some((&(l, y), other_rest))) => {
            if x < y {
                if add_own(m, k, x, made)? {
                    add_sum(m, own_rest, n, other, made)
                } else {
                    Ok(false)
                }
            } else if y < x {
                if add_other(n, l, y, made)? {
                    add_sum(m, own, n, other_rest, made)
                } else {
                    Ok(false)
                }
            } else if add_both(m, k, n, l, x, made)? {
                add_sum(m, own_rest, n, other_rest, made)
            } else {
                Ok(false)
            }
        }
    }
}

fn add_own(m: i128, k: i128, x: usize, made: &mut Vec<(i128, usize)>) -> Result<bool, NoMemory>
    ensures { IfOk result (AddsParts (IsI128 (m *ℤ k)) (part (m *ℤ k) x)
        (monomials made.old.items) (monomials made.new.items)) }
{
    match mul(m, k) {
        Some(number) => {
            add_part(number, x, made)?;
            Ok(true)
        }
        None => Ok(false),
    }
}

fn add_other(n: i128, l: i128, y: usize, made: &mut Vec<(i128, usize)>) -> Result<bool, NoMemory>
    ensures { IfOk result (AddsParts (IsI128 (n *ℤ l)) (monomial (n *ℤ l) y ∷ [])
        (monomials made.old.items) (monomials made.new.items)) }
{
    match mul(n, l) {
        Some(number) => {
            made.push((number, y))?;
            Ok(true)
        }
        None => Ok(false),
    }
}

fn add_both(
    m: i128,
    k: i128,
    n: i128,
    l: i128,
    x: usize,
    made: &mut Vec<(i128, usize)>,
) -> Result<bool, NoMemory>
    ensures { IfOk result (AddsParts (FitsBoth m k n l) (part (m *ℤ k +ℤ n *ℤ l) x)
        (monomials made.old.items) (monomials made.new.items)) }
{
    match combine(m, k, n, l) {
        Some(number) => {
            add_part(number, x, made)?;
            Ok(true)
        }
        None => Ok(false),
    }
}

// Adds the number at the column, if it isn't 0.
fn add_part(number: i128, column: usize, made: &mut Vec<(i128, usize)>) -> Result<(), NoMemory>
    ensures { OnOk result
        (monomials made.new.items ≡ monomials made.old.items ++ part number column) }
{
    if number != 0 {
        made.push((number, column))?;
    }
    Ok(())
}
