//! A law of the definitions. It does nothing: its contract is what is proved.

ghost use Rattle.sv_by_rule.specs.RuleRows.{PatternsAreRules};

/// But for congruence, the pattern of a rule is the rule.
pub fn patterns_are_rules()
    ensures { PatternsAreRules }
{}
