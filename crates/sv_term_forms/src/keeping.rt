ghost use Rattle.std.specs.Prelude.{◌≡◌, length, MatchOption};
ghost use Rattle.sv_num.specs.Range.{IsI128};
ghost use Rattle.sv_term.specs.Terms.{Lit};
ghost use Rattle.sv_log.specs.FormsOfTerms.{lit_value};
ghost use Rattle.sv_form.specs.TermWeights.{IsBlank};
ghost use Rattle.sv_form_rows.specs.Questions.{AreReady};
ghost use Rattle.sv_term_forms.specs.declared.form_node.FormNode.TheVariants.{Product};
ghost use Rattle.sv_term_forms.specs.NextTerms.{IsNamedBelow};
ghost use Rattle.sv_term_forms.specs.KeptNodes.{Keeps, IsJoin, AreBelow, CanMultiply, KeepsLiteral};

use crate::form_node::FormNode;
use sv_form::{Join, Linear};
use sv_form_rows::can_join;

/// What is kept of a next term of which the node tells.
pub(crate) fn kept_of(
    node: FormNode,
    nodes: &[Linear],
    first: &mut [i128],
    second: &mut [i128],
) -> Linear
    requires { IsNamedBelow (length nodes.now) node × AreReady nodes.now first.old second.old }
    ensures blank { IsBlank first.new × IsBlank second.new }
    ensures keeps { Keeps nodes.now node result }
{
    match node {
        FormNode::Literal(negative, number) => kept_literal(negative, number),
        FormNode::Sum(a, b) => kept_join(Join::Sum, a, b, nodes, first, second),
        FormNode::Difference(a, b) => kept_join(Join::Difference, a, b, nodes, first, second),
        FormNode::Product(a, b) => kept_product(a, b, nodes, first, second),
        FormNode::AtMost(a, b) => Linear::AtMost(a, b),
        FormNode::Equal(a, b) => Linear::Equal(a, b),
        FormNode::Other => Linear::Column,
    }
}

fn kept_literal(negative: bool, number: u128) -> Linear
    ensures { KeepsLiteral negative number result }
{
    match worth(negative, number) {
        Some(number) => Linear::Literal(number),
        None => Linear::Wide,
    }
}

// What the literal is worth, or `None` where that is no `i128`.
fn worth(negative: bool, number: u128) -> Option<i128>
    ensures { MatchOption result (IsI128 (lit_value (Lit negative number)) → ⊥)
        (λ z. (z ≡ lit_value (Lit negative number)) × IsI128 z) }
{
    if !negative {
        if number < 1 << 127 {
            return Some(number as i128);
        }
        return None;
    }
    if number == 0 {
        return Some(0);
    }
    if number <= 1 << 127 {
        return Some(-1 - (number - 1) as i128);
    }
    None
}

fn kept_join(
    how: Join,
    a: usize,
    b: usize,
    nodes: &[Linear],
    first: &mut [i128],
    second: &mut [i128],
) -> Linear
    requires { AreBelow (length nodes.now) a b × AreReady nodes.now first.old second.old }
    ensures blank { IsBlank first.new × IsBlank second.new }
    ensures join { IsJoin nodes.now how a b result }
{
    if can_join(how, a, b, nodes, first, second) {
        Linear::Joined(how, a, b)
    } else {
        Linear::Outside
    }
}

fn kept_product(
    a: usize,
    b: usize,
    nodes: &[Linear],
    first: &mut [i128],
    second: &mut [i128],
) -> Linear
    requires { AreBelow (length nodes.now) a b × AreReady nodes.now first.old second.old }
    ensures blank { IsBlank first.new × IsBlank second.new }
    ensures keeps { Keeps nodes.now (Product a b) result }
{
    match nodes[a] {
        Linear::Literal(number) => kept_join(Join::Multiple(number), b, a, nodes, first, second),
        Linear::Wide => Linear::Outside,
        _ => kept_product_by(a, b, nodes, first, second),
    }
}

// The product of a term that is no literal with another.
fn kept_product_by(
    a: usize,
    b: usize,
    nodes: &[Linear],
    first: &mut [i128],
    second: &mut [i128],
) -> Linear
    requires { CanMultiply nodes.now a b × AreReady nodes.now first.old second.old }
    ensures blank { IsBlank first.new × IsBlank second.new }
    ensures keeps { Keeps nodes.now (Product a b) result }
{
    match nodes[b] {
        Linear::Literal(number) => kept_join(Join::Multiple(number), a, b, nodes, first, second),
        Linear::Wide => Linear::Outside,
        _ => Linear::Column,
    }
}
