ghost use Rattle.std.specs.Prelude.{◌≡◌, ◌+◌, ◌<◌, ◌^◌, slice_get, IfSome};
ghost use Rattle.sv_term.specs.Banks.{args};

use sv_term::{Node, TermId};

fn nth(ids: &[TermId], k: usize) -> Option<TermId>
    ensures is { result ≡ slice_get ids.now k }
    ensures within { IfSome result (λ _. k + 1 < 2 ^ 64) }
{
    Some(*ids.get(k)?)
}

/// The argument of a node at a place, from 0.
pub fn arg(node: &Node, k: usize) -> Option<TermId>
    ensures is { result ≡ slice_get (args node.now) k }
    ensures within { IfSome result (λ _. k + 1 < 2 ^ 64) }
{
    match node {
        Node::Lit(_, _) | Node::Truth(_) | Node::Var(_, _) => None,
        Node::Wrap(_, _, a) | Node::Not(a) | Node::Const(_, a) | Node::Get(_, a) | Node::Sum(a) => {
            nth(&[*a], k)
        }
        Node::Add(a, b)
        | Node::Sub(a, b)
        | Node::Mul(a, b)
        | Node::Div(a, b)
        | Node::Mod(a, b)
        | Node::Le(a, b)
        | Node::Eq(a, b)
        | Node::And(a, b)
        | Node::Or(a, b)
        | Node::Sel(a, b) => nth(&[*a, *b], k),
        Node::Ite(a, b, c) | Node::Sto(a, b, c) | Node::Mix(a, b, c) => nth(&[*a, *b, *c], k),
        Node::Tup(_, ids) => nth(ids.as_slice(), k),
    }
}
