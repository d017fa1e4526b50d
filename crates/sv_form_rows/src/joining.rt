ghost use Rattle.std.specs.Prelude.{◌≡◌, ◌↔◌, ◌<◌, ◌≤◌, IsTrue, length};
ghost use Rattle.sv_num.specs.Range.{IsI128};
ghost use Rattle.sv_form.specs.Joins.{joined};
ghost use Rattle.sv_form.specs.Nodes.{is_in_range, node_at};
ghost use Rattle.sv_form.specs.TermWeights.{IsBlank};
ghost use Rattle.sv_form_rows.specs.Questions.{AreReady, CanSettleBoth, JoinsUpTo, TellsJoin};

use sv_form::{Join, Linear, clear, join, settle};

/// Whether the form has a number for each column, and so have those on the way.
pub(crate) fn is_formed(node: Linear) -> bool
    ensures { result ≡ is_in_range node }
{
    match node {
        Linear::Wide | Linear::Outside => false,
        _ => true,
    }
}

/// Whether the two terms have forms, and each number of what is made of them is an `i128`.
pub fn can_join(
    how: Join,
    a: usize,
    b: usize,
    nodes: &[Linear],
    first: &mut [i128],
    second: &mut [i128],
) -> bool
    requires within { (a < length nodes.now) × (b < length nodes.now) }
    requires ready { AreReady nodes.now first.old second.old }
    ensures blank { IsBlank first.new × IsBlank second.new }
    ensures exact { TellsJoin nodes.now how a b result }
    ensures formed { IsTrue result
        → IsTrue (is_in_range (node_at nodes.now a)) × IsTrue (is_in_range (node_at nodes.now b)) }
{
    if !is_formed(nodes[a]) {
        return false;
    }
    if !is_formed(nodes[b]) {
        return false;
    }
    joins(how, a, b, nodes, first, second)
}

fn joins(
    how: Join,
    a: usize,
    b: usize,
    nodes: &[Linear],
    first: &mut [i128],
    second: &mut [i128],
) -> bool
    requires { CanSettleBoth nodes.now a b first.old second.old }
    ensures blank { IsBlank first.new × IsBlank second.new }
    ensures exact { TellsJoin nodes.now how a b result }
{
    let one = settle(nodes, a, first);
    let other = settle(nodes, b, second);
    let count = count_to(a, b, nodes.len());
    let fits = fit_joined(how, one, other, first, second, count);
    clear(first, a);
    clear(second, b);
    fits
}

/// How many numbers there are up to the greater.
pub(crate) fn count_to(a: usize, b: usize, len: usize) -> usize
    requires { (a < len) × (b < len) }
    ensures { (a < result) × (b < result) × (result ≤ len) }
{
    if a < b { b + 1 } else { a + 1 }
}

fn fit_joined(
    how: Join,
    one: i128,
    other: i128,
    first: &[i128],
    second: &[i128],
    count: usize,
) -> bool
    requires { (count ≤ length first.now) × (count ≤ length second.now) }
    ensures { IsTrue result
        ↔ IsI128 (joined how one other) × JoinsUpTo how first.now second.now count }
{
    match join(how, one, other) {
        Some(_) => all_join(how, first, second, count),
        None => false,
    }
}

fn all_join(how: Join, first: &[i128], second: &[i128], count: usize) -> bool
    requires { (count ≤ length first.now) × (count ≤ length second.now) }
    ensures { IsTrue result ↔ JoinsUpTo how first.now second.now count }
{
    for k in 0..count {
        if join(how, first[k], second[k]).is_none() {
            return false;
        }
    }
    true
}
