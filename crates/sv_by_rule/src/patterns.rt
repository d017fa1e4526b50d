ghost use Rattle.std.specs.Prelude.{◌≡◌, ◌↔◌, ◌<◌, length, IsTrue};
ghost use Rattle.sv_term.specs.FactRules.{IsByRule};
ghost use Rattle.sv_pattern.specs.Patterns.{facts_by, fact_by};
ghost use Rattle.sv_pattern.specs.NodeOpenings.{ArePremises};

use crate::rows::steps_of;
use sv_pattern::{TermNumbers, follow};

/// Whether the rule of that number gives the fact of that sign on that term from the premises. Congruence, whose number is 23, isn't asked here.
pub fn is_by_pattern<T: TermNumbers>(
    terms: &T,
    rule: u8,
    premises: &[(bool, usize)],
    sign: bool,
    n: usize,
) -> bool
    requires premises { ArePremises (T.trees terms.now) premises.now }
    requires within { n < length (T.trees terms.now) }
    requires pattern { rule ≡ 23 → ⊥ }
    ensures { IsTrue result ↔ IsByRule rule (facts_by (T.trees terms.now) premises.now) (fact_by (T.trees terms.now) (sign, n)) }
{
    follow(terms, steps_of(rule), premises, sign, n)
}
