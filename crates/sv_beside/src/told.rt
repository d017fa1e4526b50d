ghost use Rattle.std.specs.Prelude.{◌≡◌, ◌<◌, ◌∷◌, [], length};
ghost use Rattle.sv_term.specs.Sorts.{is_num};
ghost use Rattle.sv_term.specs.Terms.{sort_of};
ghost use Rattle.sv_log.specs.Logs.{nth_term};
ghost use Rattle.sv_term_room.specs.TermRows.{terms_of};
ghost use Rattle.sv_beside.specs.BesideTerms.{IsTold};

use sv_sort_room::Cell;
use sv_term_forms::FormNode;
use sv_term_room::{Shape, TermRoom};

/// What is told of a term by its number, as far as its linear form goes.
pub(crate) fn told(terms: &TermRoom, n: usize) -> FormNode
    requires { n < length terms.now.rows }
    ensures { IsTold (terms_of terms.now) n result }
{
    terms.is_sound();
    let (shape, args) = terms.node(n);
    match shape {
        Shape::Lit(negative, m) => FormNode::Literal(negative, m),
        Shape::Add => {
            let (a, b) = pair(args);
            FormNode::Sum(a, b)
        }
        Shape::Sub => {
            let (a, b) = pair(args);
            FormNode::Difference(a, b)
        }
        Shape::Mul => {
            let (a, b) = pair(args);
            FormNode::Product(a, b)
        }
        Shape::Le => {
            let (a, b) = pair(args);
            FormNode::AtMost(a, b)
        }
        Shape::Eq => {
            let (a, b) = pair(args);
            if is_num(terms, a) {
                FormNode::Equal(a, b)
            } else {
                FormNode::Other
            }
        }
        _ => FormNode::Other,
    }
}

fn pair(args: &[usize]) -> (usize, usize)
    requires { length args.now ≡ 2 }
    ensures { args.now ≡ result.0 ∷ result.1 ∷ [] }
{
    (args[0], args[1])
}

// Whether the term is a number.
fn is_num(terms: &TermRoom, n: usize) -> bool
    requires { n < length terms.now.rows }
    ensures { result ≡ is_num (sort_of (nth_term (terms_of terms.now) n)) }
{
    terms.is_sound();
    match terms.sorts().cell(terms.sort_of(n)) {
        Cell::Num(_) => true,
        Cell::Bool | Cell::Arr(_) | Cell::Unit | Cell::Tup(_, _) => false,
    }
}
