//! Marks of a node.
#![tactic(auto)]

ghost use Rattle.std.specs.Prelude.{◌≡◌, ◌&&◌};
ghost use Rattle.sv_book.specs.Visits.{asked, sound};
ghost use Rattle.sv_form_marks.specs.FormMarks.{no_marks, marked, group, marks_table};

use sv_book::Pass;
use sv_rule::{Fault, Rule};
use sv_text::Place;

/// Which rules of the first group a node breaks.
#[derive(Clone, Copy, Debug, PartialEq, Eq)]
pub struct Marks {
    pub no_contract: bool,
    pub wide_literal: bool,
    pub address_literal: bool,
    pub unchecked: bool,
    pub note: bool,
    pub placeholder: bool,
    pub jump: bool,
    pub assign: bool,
    pub head: bool,
    pub power: bool,
}

impl Marks {
    /// No rule is broken.
    pub fn none() -> Marks
        ensures { result ≡ no_marks }
    {
        Marks {
            no_contract: false,
            wide_literal: false,
            address_literal: false,
            unchecked: false,
            note: false,
            placeholder: false,
            jump: false,
            assign: false,
            head: false,
            power: false,
        }
    }

    /// Whether a rule is broken.
    fn has(self, rule: Rule) -> bool
        ensures { result ≡ marked rule self }
    {
        match rule {
            Rule::NoContract => self.no_contract,
            Rule::WideLiteral => self.wide_literal,
            Rule::AddressLiteral => self.address_literal,
            Rule::Unchecked => self.unchecked,
            Rule::Note => self.note,
            Rule::Placeholder => self.placeholder,
            Rule::Jump => self.jump,
            Rule::Assign => self.assign,
            Rule::Head => self.head,
            Rule::Power => self.power,
            _ => false,
        }
    }
}

/// The first group of rules, in order.
const GROUP: [Rule; 10] = [
    Rule::NoContract,
    Rule::WideLiteral,
    Rule::AddressLiteral,
    Rule::Unchecked,
    Rule::Note,
    Rule::Placeholder,
    Rule::Jump,
    Rule::Assign,
    Rule::Head,
    Rule::Power,
];

/// Asks rules of a node, whose parts are clear or not.
fn ask_all(pass: &mut Pass<Fault>, rules: &[Rule], marks: Marks, place: Place)
    ensures clear { pass.new.clear ≡ (pass.old.clear && sound (marks_table place) rules.now marks) }
    ensures least { pass.new.least
        ≡ asked (marks_table place) rules.now pass.old.clear pass.old.least marks }
{
    let parts = pass.clear;
    let mut left = rules;
    'rules: while let Some((rule, more)) = left.split_first() {
        let rule = *rule;
        pass.ask(parts, marks.has(rule), Fault { rule, place });
        left = more;
    }
}

/// Leaves a node, before which all was clear or not: asks the rules of the group of it.
pub fn close(pass: &mut Pass<Fault>, before: bool, marks: Marks, place: Place)
    ensures clear { pass.new.clear
        ≡ (before && (pass.old.clear && sound (marks_table place) group marks)) }
    ensures least { pass.new.least
        ≡ asked (marks_table place) group pass.old.clear pass.old.least marks }
{
    ask_all(pass, &GROUP, marks, place);
    pass.clear = before && pass.clear;
}
