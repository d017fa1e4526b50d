ghost use Rattle.std.specs.Prelude.{◌≡◌, ◌↔◌, ◌<◌, length, IsTrue};
ghost use Rattle.sv_by_rule.specs.ItemFacts.{CanAskAll, IsGivenBy};

use crate::alike::is_alike;
use crate::items::gather;
use crate::patterns::is_by_pattern;
use sv_force::InForce;
use sv_pattern::TermNumbers;

/// Whether the rule of that number gives the fact of that sign on that term from the items in force of these numbers. An item that is
/// a row gives nothing.
pub fn by_rule<T: TermNumbers>(
    terms: &T,
    force: &InForce,
    rule: u8,
    from: &[usize],
    sign: bool,
    n: usize,
) -> bool
    requires { CanAskAll (T.trees terms.now) force.now.items from.now n }
    ensures { IsTrue result ↔ IsGivenBy (T.trees terms.now) force.now.items rule from.now sign n }
{
    if rule == 23 {
        return is_alike(terms, force, from, sign, n);
    }
    match gather(force, from) {
        Some(premises) => is_by_pattern(terms, rule, premises.as_slice(), sign, n),
        None => false,
    }
}
