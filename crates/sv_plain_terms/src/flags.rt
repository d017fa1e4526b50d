ghost use Rattle.std.specs.Prelude.{◌≡◌, ◌↔◌, ◌<◌, length, IsTrue};
ghost use Rattle.std.specs.List.{All};
ghost use Rattle.sv_term.specs.Terms.{is_plain, zero_lit, sort_of};
ghost use Rattle.sv_term.specs.Sorts.{is_flat, is_num};
ghost use Rattle.sv_log.specs.Logs.{nth_term, nth_terms};
ghost use Rattle.sv_term_room.specs.TermRows.{terms_of};
ghost use Rattle.sv_plain_terms.specs.PlainFlags.{AreFlagsBelow, CanFlag, plain_at, args_plain_at, arg_plain, value_plain};

use sv_sort_room::Cell;
use sv_term_room::{Shape, TermRoom};

/// Whether a term is plain, by the flags of the terms before it.
pub fn is_plain_node(terms: &TermRoom, flags: &[bool], n: usize) -> bool
    requires within { n < length terms.now.rows }
    requires flags { AreFlagsBelow terms.now n flags.now }
    ensures { result ≡ is_plain (nth_term (terms_of terms.now) n) }
{
    terms.is_sound();
    is_plain_shape(terms, n) && are_plain(terms, flags, n)
}

// Whether the node may be plain, but for its arguments that are arrays or tuples.
fn is_plain_shape(terms: &TermRoom, n: usize) -> bool
    requires { n < length terms.now.rows }
    ensures { result ≡ plain_at (terms_of terms.now) n }
{
    terms.is_sound();
    let (shape, args) = terms.node(n);
    match shape {
        Shape::Const(_) => is_plain_value(terms, args),
        Shape::Var(_, _) | Shape::Sto | Shape::Sel | Shape::Get(_) => true,
        Shape::Ite | Shape::Mix | Shape::Tup(_) => true,
        _ => false,
    }
}

// Whether the arguments that are arrays or tuples are plain.
fn are_plain(terms: &TermRoom, flags: &[bool], n: usize) -> bool
    requires { CanFlag terms.now n flags.now }
    ensures { result ≡ args_plain_at (terms_of terms.now) n }
{
    terms.is_sound();
    let (_, args) = terms.node(n);
    for k in args {
        if !is_plain_argument(terms, flags, n, *k) {
            return false;
        }
    }
    true
}

// Whether an argument of the term is plain, or neither an array nor a tuple.
fn is_plain_argument(terms: &TermRoom, flags: &[bool], n: usize, k: usize) -> bool
    requires argument { CanFlag terms.now n flags.now × (k < n) }
    ensures { result ≡ arg_plain (nth_term (terms_of terms.now) k) }
{
    terms.is_sound();
    if is_flat(terms, k) {
        return true;
    }
    flags[k]
}

// Whether a constant array of the first of these is plain, but for it.
fn is_plain_value(terms: &TermRoom, args: &[usize]) -> bool
    requires { All (λ k. k < length terms.now.rows) args.now }
    ensures { result ≡ value_plain (nth_terms (terms_of terms.now) args.now) }
{
    terms.is_sound();
    if args.len() == 0 {
        return true;
    }
    let value = args[0];
    if is_zero(terms, value) {
        return true;
    }
    !is_num(terms, value)
}

fn is_zero(terms: &TermRoom, n: usize) -> bool
    requires { n < length terms.now.rows }
    ensures { IsTrue result ↔ (nth_term (terms_of terms.now) n ≡ zero_lit) }
{
    terms.is_sound();
    let (shape, args) = terms.node(n);
    shape.is(Shape::Lit(false, 0)) && args.len() == 0
}

// Whether the term is a number or a truth value.
fn is_flat(terms: &TermRoom, n: usize) -> bool
    requires { n < length terms.now.rows }
    ensures { result ≡ is_flat (sort_of (nth_term (terms_of terms.now) n)) }
{
    terms.is_sound();
    match terms.sorts().cell(terms.sort_of(n)) {
        Cell::Num(_) | Cell::Bool => true,
        Cell::Arr(_) | Cell::Unit | Cell::Tup(_, _) => false,
    }
}

fn is_num(terms: &TermRoom, n: usize) -> bool
    requires { n < length terms.now.rows }
    ensures { result ≡ is_num (sort_of (nth_term (terms_of terms.now) n)) }
{
    terms.is_sound();
    match terms.sorts().cell(terms.sort_of(n)) {
        Cell::Num(_) => true,
        Cell::Bool | Cell::Arr(_) | Cell::Unit | Cell::Tup(_, _) => false,
    }
}
