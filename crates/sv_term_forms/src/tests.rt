ghost use Rattle.std.specs.Prelude.{◌↔◌, IsTrue};
ghost use Rattle.sv_term_forms.specs.NextTerms.{IsNamedBelow};

use crate::{FormNode, Forms};
use std::test::Fail;

const GREATEST: u128 = i128::MAX as u128;

const NODES: [FormNode; 16] = [
    FormNode::Literal(false, 2),
    // x, y
    FormNode::Other,
    FormNode::Other,
    // 2x, 2x + y
    FormNode::Product(0, 1),
    FormNode::Sum(3, 2),
    FormNode::Literal(true, 7),
    // 2x + y + 7, and whether it is at most x
    FormNode::Difference(4, 5),
    FormNode::AtMost(6, 1),
    // xy, a column, and whether it is 2x
    FormNode::Product(1, 2),
    FormNode::Equal(8, 3),
    // what is too wide by itself, as a factor and as a sum
    FormNode::Literal(false, GREATEST + 1),
    FormNode::Product(10, 1),
    FormNode::AtMost(11, 4),
    FormNode::Literal(false, GREATEST),
    FormNode::Sum(13, 0),
    FormNode::AtMost(14, 4),
];

fn is_named_below(node: FormNode, len: usize) -> bool
    ensures { IsTrue result ↔ IsNamedBelow len node }
{
    match node {
        FormNode::Sum(a, b) => a < len && b < len,
        FormNode::Difference(a, b) => a < len && b < len,
        FormNode::Product(a, b) => a < len && b < len,
        FormNode::AtMost(a, b) => a < len && b < len,
        FormNode::Equal(a, b) => a < len && b < len,
        FormNode::Literal(_, _) | FormNode::Other => true,
    }
}

#[test]
fn forms_of_facts(rt: HostRuntime) -> Result<(), Fail> {
    let mut forms = Forms::new(rt.alloc(), 16)?;
    for node in NODES {
        assert!(rt; forms.len() < forms.room() && is_named_below(node, forms.len()));
        forms.push(node);
    }
    for (sign, n, forward, constant, parts, want) in [
        (true, 7, true, 7, [(1, 1), (1, 2)], true),
        (true, 7, true, 6, [(1, 1), (1, 2)], false),
        (true, 7, false, 7, [(1, 1), (1, 2)], false),
        (false, 7, true, -6, [(-1, 1), (-1, 2)], true),
        (true, 9, true, 0, [(-2, 1), (1, 8)], true),
        (true, 9, false, 0, [(2, 1), (-1, 8)], true),
        (true, 9, true, 0, [(2, 1), (-1, 8)], false),
        (true, 12, true, 0, [(-2, 1), (-1, 2)], false),
        (true, 15, true, i128::MIN + 1, [(-2, 1), (-1, 2)], false),
    ] {
        assert!(rt; n < forms.len());
        assert_eq!(rt;
            forms.is_form(sign, n, forward, constant, &parts),
            want,
            "{n} {constant}"
        );
    }
    Ok(())
}
