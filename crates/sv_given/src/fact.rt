ghost use Rattle.std.specs.Prelude.{◌↔◌, ◌<◌, IsTrue};
ghost use Rattle.std.specs.List.{All};
ghost use Rattle.sv_log.specs.LogEntries.{AddFact};
ghost use Rattle.sv_term_room.specs.TermRows.{terms_of};
ghost use Rattle.sv_plain_terms.specs.PlainFlags.{AreFlags};
ghost use Rattle.sv_by_rule.specs.ItemFacts.{CanAskAll, IsGivenBy};
ghost use Rattle.sv_allowed.specs.EntryJudging.{AreOver, Judges, stands};

use sv_allowed::{Why, is_claim};
use sv_branch::Branch;
use sv_by_rule::by_rule;
use sv_force::InForce;
use sv_plain_terms::over;
use sv_term_room::TermRoom;

/// The first cause against a fact of that sign on a term, by the rule of that number from these items. A flag says of each term whether it is plain.
pub fn by_its_rule(
    terms: &TermRoom,
    flags: &[bool],
    branch: &Branch,
    rule: u8,
    sign: bool,
    n: usize,
    from: &[usize],
) -> Option<Why>
    requires flags { AreFlags terms.now flags.now }
    requires over { AreOver terms.now branch.now.force.items }
    ensures { Judges (stands terms.now branch.now) (AddFact rule sign n from.now) result }
{
    terms.is_sound();
    if branch.is_closed() {
        return Some(Why::After);
    }
    if n >= terms.len() {
        return Some(Why::NoTerm);
    }
    let force = branch.force();
    if !are_items(from, force.len()) {
        return Some(Why::NoItem);
    }
    if force.holds_fact(sign, n) {
        return Some(Why::Repeat);
    }
    if !is_claim(terms, n) {
        return Some(Why::Rule);
    }
    if !is_given(terms, flags, force, rule, sign, n, from) {
        return Some(Why::Rule);
    }
    None
}

// Whether each is the number of an item, of which there are so many.
fn are_items(from: &[usize], count: usize) -> bool
    ensures { IsTrue result ↔ All (λ k. k < count) from.now }
{
    for &k in from {
        if k >= count {
            return false;
        }
    }
    true
}

fn is_given(
    terms: &TermRoom,
    flags: &[bool],
    force: &InForce,
    rule: u8,
    sign: bool,
    n: usize,
    from: &[usize],
) -> bool
    requires flags { AreFlags terms.now flags.now }
    requires asked { CanAskAll (terms_of terms.now) force.now.items from.now n }
    ensures { IsTrue result ↔ IsGivenBy (terms_of terms.now) force.now.items rule from.now sign n }
{
    by_rule(&over(terms, flags), force, rule, from, sign, n)
}
