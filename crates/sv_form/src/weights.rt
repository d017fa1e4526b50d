ghost use Rattle.std.specs.Prelude.{◌≡◌, ◌<◌, length};
ghost use Rattle.sv_form.specs.TermWeights.{with_weight, passed, brought, HasArguments, CanSettle, IsSettled, IsBlank, IsBlankAbove};

use crate::joining::factors;
use crate::node::Linear;

/// Spreads a term over the columns: each column's weight is its number in the form of the term, and the result is the constant, both but for multiples of 2^128.
pub fn settle(nodes: &[Linear], from: usize, weights: &mut [i128]) -> i128
    requires { CanSettle nodes.now from weights.old }
    ensures { IsSettled nodes.now from weights.new result }
{
    weights[from] = 1;
    let mut constant: i128 = 0;
    let mut left = from + 1;
    while left != 0 {
        left -= 1;
        let more = pass_on(nodes[left], left, weights);
        constant = constant.wrapping_add(more);
    }
    constant
}

// Passes the weight of a term on to its arguments; the result is what a literal brings.
fn pass_on(node: Linear, n: usize, weights: &mut [i128]) -> i128
    requires { (n < length weights.old) × HasArguments node n }
    ensures { (weights.new ≡ passed node n weights.old) × (result ≡ brought node n weights.old) }
{
    let weight = weights[n];
    match node {
        Linear::Literal(number) => {
            weights[n] = 0;
            weight.wrapping_mul(number)
        }
        Linear::Joined(how, first, second) => {
            weights[n] = 0;
            let (own, other) = factors(how);
            add_at(weights, first, weight.wrapping_mul(own));
            add_at(weights, second, weight.wrapping_mul(other));
            0
        }
        _ => 0,
    }
}

fn add_at(weights: &mut [i128], n: usize, more: i128)
    requires { n < length weights.old }
    ensures { weights.new ≡ with_weight n more weights.old }
{
    weights[n] = weights[n].wrapping_add(more);
}

/// Takes all weights away again.
pub fn clear(weights: &mut [i128], from: usize)
    requires { (from < length weights.old) × IsBlankAbove from weights.old }
    ensures { IsBlank weights.new }
{
    let mut left = from + 1;
    while left != 0 {
        left -= 1;
        weights[left] = 0;
    }
}
