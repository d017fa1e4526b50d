ghost use Rattle.std.specs.Prelude.{◌≡◌, ◌↔◌, ◌<◌, ◌≤◌, ◌-ℤ◌, IsTrue, IfSome, IsSome, length};
ghost use Rattle.sv_num.specs.Range.{IsI128};
ghost use Rattle.sv_log.specs.LogRows.{row};
ghost use Rattle.sv_row.specs.RowParts.{monomials};
ghost use Rattle.sv_derived.specs.Columns.{LeavesBehind};
ghost use Rattle.sv_form.specs.TermWeights.{IsBlank};
ghost use Rattle.sv_form_rows.specs.Listings.{listing, gaps};
ghost use Rattle.sv_form_rows.specs.Questions.{AreReady, CanSettleBoth, TellsDifference, IsGapRow, gap_number};

use crate::fact_sides::Sides;
use crate::joining::{count_to, is_formed};
use sv_form::{Linear, clear, settle};

/// Whether both sides have forms, and the row of the constant and the parts is their difference.
pub fn is_difference(
    sides: Sides,
    nodes: &[Linear],
    constant: i128,
    parts: &[(i128, usize)],
    first: &mut [i128],
    second: &mut [i128],
) -> bool
    requires within { (sides.first < length nodes.now) × (sides.second < length nodes.now) }
    requires ready { AreReady nodes.now first.old second.old }
    ensures blank { IsBlank first.new × IsBlank second.new }
    ensures exact { TellsDifference nodes.now sides (row constant (monomials parts.now)) result }
{
    if !is_formed(nodes[sides.first]) {
        return false;
    }
    if !is_formed(nodes[sides.second]) {
        return false;
    }
    is_formed_difference(sides, nodes, constant, parts, first, second)
}

fn is_formed_difference(
    sides: Sides,
    nodes: &[Linear],
    constant: i128,
    parts: &[(i128, usize)],
    first: &mut [i128],
    second: &mut [i128],
) -> bool
    requires { CanSettleBoth nodes.now sides.first sides.second first.old second.old }
    ensures blank { IsBlank first.new × IsBlank second.new }
    ensures exact { TellsDifference nodes.now sides (row constant (monomials parts.now)) result }
{
    let one = settle(nodes, sides.first, first);
    let other = settle(nodes, sides.second, second);
    let count = count_to(sides.first, sides.second, nodes.len());
    let same = is_gap_row(
        one,
        other,
        sides.strict,
        first,
        second,
        count,
        constant,
        parts,
    );
    clear(first, sides.first);
    clear(second, sides.second);
    same
}

fn is_gap_row(
    one: i128,
    other: i128,
    strict: bool,
    first: &[i128],
    second: &[i128],
    count: usize,
    constant: i128,
    parts: &[(i128, usize)],
) -> bool
    requires { (count ≤ length first.now) × (count ≤ length second.now) }
    ensures { IsTrue result
        ↔ IsGapRow one other strict first.now second.now count constant (monomials parts.now) }
{
    match gap(one, other, strict) {
        Some(number) => number == constant && is_listing(first, second, count, parts),
        None => false,
    }
}

/// The first less the second, and 1 more where it is strict; `None` where that is no `i128`.
fn gap(a: i128, b: i128, strict: bool) -> Option<i128>
    ensures value { IfSome result (λ v. v ≡ gap_number strict a b) }
    ensures exact { IsSome result ↔ IsI128 (gap_number strict a b) }
{
    if !strict {
        return a.checked_sub(b);
    }
    if a < b {
        return (a + 1).checked_sub(b);
    }
    let less = a.checked_sub(b)?;
    less.checked_add(1)
}

fn is_listing(first: &[i128], second: &[i128], count: usize, parts: &[(i128, usize)]) -> bool
    requires { (count ≤ length first.now) × (count ≤ length second.now) }
    ensures { IsTrue result ↔ (monomials parts.now ≡ listing (gaps first.now second.now) 0 count) }
{
    let mut rest = parts;
    for column in 0..count {
        let Some(more) = behind(first[column], second[column], column, rest) else {
            return false;
        };
        rest = more;
    }
    rest.is_empty()
}

// What stands behind the difference of two numbers at a column; behind nothing, where it is 0.
fn behind(a: i128, b: i128, column: usize, made: &[(i128, usize)]) -> Option<&[(i128, usize)]>
    ensures { LeavesBehind (a -ℤ b) column (monomials made.now) result }
{
    if a == b {
        return Some(made);
    }
    match made.split_first() {
        Some((&(k, x), rest)) => {
            if is_part(k, x, a, b, column) {
                Some(rest)
            } else {
                None
            }
        }
        None => None,
    }
}

fn is_part(k: i128, x: usize, a: i128, b: i128, column: usize) -> bool
    ensures { IsTrue result ↔ (k ≡ a -ℤ b) × (x ≡ column) }
{
    match a.checked_sub(b) {
        Some(number) => number == k && x == column,
        None => false,
    }
}
