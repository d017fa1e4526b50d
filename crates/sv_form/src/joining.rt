ghost use Rattle.std.specs.Prelude.{◌≡◌, ◌↔◌, IfSome, IsSome};
ghost use Rattle.sv_num.specs.Range.{IsI128};
ghost use Rattle.sv_form.specs.Joins.{joined, first_factor, second_factor};

use crate::node::Join;

/// What is made of two numbers, or `None` where it is no `i128`.
pub fn join(how: Join, first: i128, second: i128) -> Option<i128>
    ensures value { IfSome result (λ v. v ≡ joined how first second) }
    ensures exact { IsSome result ↔ IsI128 (joined how first second) }
{
    match how {
        Join::Sum => first.checked_add(second),
        Join::Difference => first.checked_sub(second),
        Join::Multiple(number) => number.checked_mul(first),
    }
}

/// How many of each of the two are in what is made of them.
pub(crate) fn factors(how: Join) -> (i128, i128)
    ensures { (result.0 ≡ first_factor how) × (result.1 ≡ second_factor how) }
{
    match how {
        Join::Sum => (1, 1),
        Join::Difference => (1, -1),
        Join::Multiple(number) => (number, 0),
    }
}
