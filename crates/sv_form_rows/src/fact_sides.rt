ghost use Rattle.std.specs.Prelude.{◌≡◌, false};
ghost use Rattle.sv_form_rows.specs.Questions.{sides_by, at_most_sides, equal_sides, ShowsSides, AreWithin};

use sv_form::Linear;

/// What a form is the difference of: the first side less the second, and 1 more where it is strict.
#[derive(Clone, Copy)]
pub struct Sides {
    pub first: usize,
    pub second: usize,
    pub strict: bool,
}

/// The sides of the form of a fact on the term of this node, `None` where it has no form.
pub fn sides_of(node: Linear, sign: bool, forward: bool) -> Option<Sides>
    ensures shows { ShowsSides node sign forward result }
    ensures within { AreWithin node result }
{
    match node {
        Linear::AtMost(first, second) => at_most(first, second, sign, forward),
        Linear::Equal(first, second) => equal(first, second, sign, forward),
        _ => None,
    }
}

fn at_most(first: usize, second: usize, sign: bool, forward: bool) -> Option<Sides>
    ensures { result ≡ at_most_sides first second sign forward }
{
    match (sign, forward) {
        (true, true) => Some(plain(first, second)),
        (false, true) => Some(Sides {
            first: second,
            second: first,
            strict: true,
        }),
        (_, false) => None,
    }
}

fn equal(first: usize, second: usize, sign: bool, forward: bool) -> Option<Sides>
    ensures { result ≡ equal_sides first second sign forward }
{
    match (sign, forward) {
        (true, true) => Some(plain(first, second)),
        (true, false) => Some(plain(second, first)),
        (false, _) => None,
    }
}

fn plain(first: usize, second: usize) -> Sides
    ensures { result ≡ sides_by first second false }
{
    Sides {
        first,
        second,
        strict: false,
    }
}
