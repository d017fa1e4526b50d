ghost use Rattle.std.specs.Prelude.{◌≡◌, ◌↔◌, ◌<◌, length, IsTrue};
ghost use Rattle.sv_log.specs.LogEntries.{Combine, Divide};
ghost use Rattle.sv_allowed.specs.EntryJudging.{AreNormal, AreThere, Judges, stands, made, IsCombination, IsDivision};

use crate::numbers::are_columns;
use crate::why::Why;
use sv_branch::Branch;
use sv_derived::{is_combined, is_divided};
use sv_force::InForce;
use sv_term_room::TermRoom;

/// An item in force, and the number that it is taken with.
#[derive(Clone, Copy)]
pub struct Multiple {
    pub factor: i128,
    pub item: usize,
}

/// The first cause against an entry that combines two rows to one of this constant and these parts.
pub fn combine(
    terms: &TermRoom,
    branch: &Branch,
    first: Multiple,
    second: Multiple,
    constant: i128,
    parts: &[(i128, usize)],
) -> Option<Why>
    requires { AreNormal branch.now.force.items }
    ensures { Judges (stands terms.now branch.now)
        (Combine first.factor first.item second.factor second.item (made constant parts.now)) result }
{
    terms.is_sound();
    if branch.is_closed() {
        return Some(Why::After);
    }
    if !are_columns(parts, terms.len()) {
        return Some(Why::NoTerm);
    }
    let force = branch.force();
    if first.item >= force.len() || second.item >= force.len() {
        return Some(Why::NoItem);
    }
    if force.holds_row(constant, parts) {
        return Some(Why::Repeat);
    }
    if !is_combination(force, first, second, constant, parts) {
        return Some(Why::Row);
    }
    None
}

fn is_combination(
    force: &InForce,
    first: Multiple,
    second: Multiple,
    constant: i128,
    parts: &[(i128, usize)],
) -> bool
    requires there { AreThere force.now.items first second }
    requires normal { AreNormal force.now.items }
    ensures { IsTrue result ↔ IsCombination force.now.items first second (made constant parts.now) }
{
    let Some((own, own_parts)) = force.row(first.item) else {
        return false;
    };
    let Some((other, other_parts)) = force.row(second.item) else {
        return false;
    };
    is_combined(
        first.factor,
        own,
        own_parts,
        second.factor,
        other,
        other_parts,
        constant,
        parts,
    )
}

/// The first cause against an entry that divides a row to one of this constant and these parts.
pub fn divide(
    terms: &TermRoom,
    branch: &Branch,
    divided: Multiple,
    constant: i128,
    parts: &[(i128, usize)],
) -> Option<Why>
    ensures { Judges (stands terms.now branch.now)
        (Divide divided.factor divided.item (made constant parts.now)) result }
{
    terms.is_sound();
    if branch.is_closed() {
        return Some(Why::After);
    }
    if !are_columns(parts, terms.len()) {
        return Some(Why::NoTerm);
    }
    let force = branch.force();
    if divided.item >= force.len() {
        return Some(Why::NoItem);
    }
    if force.holds_row(constant, parts) {
        return Some(Why::Repeat);
    }
    if !is_division(force, divided, constant, parts) {
        return Some(Why::Row);
    }
    None
}

fn is_division(force: &InForce, divided: Multiple, constant: i128, parts: &[(i128, usize)]) -> bool
    requires { divided.item < length force.now.items }
    ensures { IsTrue result ↔ IsDivision force.now.items divided (made constant parts.now) }
{
    match force.row(divided.item) {
        Some((own, own_parts)) => is_divided(divided.factor, own, own_parts, constant, parts),
        None => false,
    }
}
