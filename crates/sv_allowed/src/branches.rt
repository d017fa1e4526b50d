ghost use Rattle.std.specs.Prelude.{◌≡◌, ◌↔◌, ◌<◌, length, IsTrue};
ghost use Rattle.sv_log.specs.LogEntries.{SplitOn, Cut, CloseAt, Clash};
ghost use Rattle.sv_branch.specs.BranchTrees.{AreBelow};
ghost use Rattle.sv_term_room.specs.TermRows.{terms_of};
ghost use Rattle.sv_allowed.specs.EntryJudging.{Judges, stands, IsAbsurdAt, IsAbsurdRow, AreOpposite, AreOver};

use crate::numbers::{is_claim, is_truth};
use crate::why::Why;
use sv_branch::Branch;
use sv_force::InForce;
use sv_term_room::TermRoom;

/// The first cause against a split on a term.
pub fn split(terms: &TermRoom, branch: &Branch, n: usize) -> Option<Why>
    requires { AreOver terms.now branch.now.force.items }
    ensures { Judges (stands terms.now branch.now) (SplitOn n) result }
{
    terms.is_sound();
    if branch.is_closed() {
        return Some(Why::After);
    }
    if n >= terms.len() {
        return Some(Why::NoTerm);
    }
    if branch.force().holds_fact(true, n) {
        return Some(Why::Repeat);
    }
    if !is_claim(terms, n) || branch.force().holds_fact(false, n) {
        return Some(Why::Branch);
    }
    None
}

/// The first cause against a cut.
pub fn cut(terms: &TermRoom, branch: &Branch) -> Option<Why>
    ensures { Judges (stands terms.now branch.now) Cut result }
{
    let _ = terms;
    if !branch.is_closed() {
        return Some(Why::Branch);
    }
    if !branch.is_in_first_half() {
        return Some(Why::After);
    }
    None
}

/// The first cause against a closing by one item.
pub fn close(terms: &TermRoom, branch: &Branch, p: usize) -> Option<Why>
    requires { AreOver terms.now branch.now.force.items }
    ensures { Judges (stands terms.now branch.now) (CloseAt p) result }
{
    if branch.is_closed() {
        return Some(Why::After);
    }
    if p >= branch.force().len() {
        return Some(Why::NoItem);
    }
    if !is_absurd(terms, branch.force(), p) {
        return Some(Why::Branch);
    }
    None
}

fn is_absurd(terms: &TermRoom, force: &InForce, p: usize) -> bool
    requires item { p < length force.now.items }
    requires over { AreOver terms.now force.now.items }
    ensures { IsTrue result ↔ IsAbsurdAt (terms_of terms.now) force.now.items p }
{
    terms.is_sound();
    match force.fact(p) {
        Some((sign, n)) => is_truth(terms, n, !sign),
        None => is_absurd_row(force, p),
    }
}

fn is_absurd_row(force: &InForce, p: usize) -> bool
    requires { p < length force.now.items }
    ensures { IsTrue result ↔ IsAbsurdRow force.now.items p }
{
    match force.row(p) {
        Some((constant, parts)) => constant > 0 && parts.is_empty(),
        None => false,
    }
}

/// The first cause against a closing by two facts of opposite sign.
pub fn clash(terms: &TermRoom, branch: &Branch, p: usize, q: usize) -> Option<Why>
    requires { AreOver terms.now branch.now.force.items }
    ensures { Judges (stands terms.now branch.now) (Clash p q) result }
{
    terms.is_sound();
    if branch.is_closed() {
        return Some(Why::After);
    }
    let force = branch.force();
    if p >= force.len() || q >= force.len() {
        return Some(Why::NoItem);
    }
    if !are_opposite(force, p, q) {
        return Some(Why::Branch);
    }
    None
}

fn are_opposite(force: &InForce, p: usize, q: usize) -> bool
    requires first { p < length force.now.items }
    requires second { q < length force.now.items }
    ensures { IsTrue result ↔ AreOpposite force.now.items p q }
{
    match (force.fact(p), force.fact(q)) {
        (Some((sign, n)), Some((other_sign, other))) => sign != other_sign && n == other,
        _ => false,
    }
}
