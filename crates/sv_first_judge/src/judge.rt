ghost use Rattle.std.specs.Prelude.{◌≡◌, All, IfOk, map};
ghost use Rattle.sv_first_judge.specs.Assignments.{HasSums};
ghost use Rattle.sv_first_form.specs.FirstForm.{IsContract};
ghost use Rattle.sv_first_judge.specs.Judging.{AreVerdicts, equation_form, judged_of};
ghost use Rattle.sv_first_judge.specs.LinearForm.{variable_form};
ghost use Rattle.sv_first_judge.specs.Points.{AreSmallActs, known_after_acts, known_of};
ghost use Rattle.sv_first_judge.specs.Rows.{form_of};

use crate::row::Row;
use crate::values::{Start, Values};
use crate::verdict::Verdict;
use sqlite_items::Items;
use std::alloc::Global;
use sv_first_form::{Act, Contract, Equation};
use sv_text::NoMemory;

/// What is known at a point of a function.
#[derive(Drop)]
struct Point<'a> {
    values: Values,
    /// The rows of the contract's invariants, which are zero at entry.
    invariants: &'a [Row],
    /// The rows of the function's requirements so far.
    required: Items<Row>,
}

impl<'a> Point<'a> {
    ghost use Rattle.std.specs.Prelude.{◌≡◌, ◌<◌, ◌↔◌, All, Any, IfOk, IsTrue, OnOk, map};
    ghost use Rattle.sv_first_judge.specs.Assignments.{count_of, start_form, HasSums};
    ghost use Rattle.sv_first_judge.specs.Judging.{IsVerdict};
    ghost use Rattle.sv_first_judge.specs.Points.{known_of, IsProvedForm, IsSmallAct, Judges};
    ghost use Rattle.sv_first_judge.specs.Rows.{Agree, form_of};

    /// Before any act, where the variables are worth this and the rows of the invariants are zero.
    fn new(alloc: Global, start: Start, invariants: &'a [Row]) -> Point<'a>
        ensures known { known_of result
            ≡ record { values = start_form start; hypotheses = map form_of invariants.now } }
        ensures count { count_of result.values ≡ 0 }
    {
        Point {
            values: Values::new(alloc, start),
            invariants,
            required: Items::new(alloc),
        }
    }

    fn act(&mut self, alloc: Global, act: &Act) -> Result<(), NoMemory>
        requires small { IsSmallAct act.now }
        requires room { count_of self.old.values < 16 }
        ensures { OnOk result (Judges self.old self.new act.now) }
    {
        match act {
            Act::Assign(variable, sum) => {
                let row = self.values.sum_row(alloc, sum.as_slice())?;
                self.values.assign(*variable, row)
            }
            Act::Require(equation) => {
                let row = self.values.equation_row(alloc, equation)?;
                self.required.push(row)?;
                Ok(())
            }
        }
    }

    fn is_proved(&self, row: &Row) -> bool
        ensures { IsTrue result ↔ IsProvedForm (known_of self.now) (form_of row.now) }
    {
        row.is_zero() || self.has_hypothesis(row)
    }

    fn has_hypothesis(&self, row: &Row) -> bool
        ensures { IsTrue result
            ↔ Any (λ other. Agree (form_of row.now) other) (known_of self.now).hypotheses }
    {
        row.agrees_with_any(self.invariants) || row.agrees_with_any(self.required.as_slice())
    }

    /// The verdict of a function that ends here.
    fn verdict(&self, alloc: Global, invariants: &[Equation]) -> Result<Verdict, NoMemory>
        requires { All HasSums invariants.now }
        ensures { IfOk result (IsVerdict invariants.now (known_of self.now)) }
    {
        for (i, invariant) in invariants.iter().enumerate() {
            let row = self.values.equation_row(alloc, invariant)?;
            if !self.is_proved(&row) {
                return Ok(Verdict::Unproved(i + 1));
            }
        }
        Ok(Verdict::Verified(invariants.len()))
    }
}

/// The rows of the invariants at a function's entry.
fn rows_at_entry(alloc: Global, invariants: &[Equation]) -> Result<Vec<Row>, NoMemory>
    requires { All HasSums invariants.now }
    ensures { IfOk result
        (λ rows. map form_of rows.items ≡ map (equation_form variable_form) invariants.now) }
{
    let values = Values::new(alloc, Start::Own);
    let mut rows = Vec::new(alloc);
    for invariant in invariants {
        rows.push(values.equation_row(alloc, invariant)?)?;
    }
    Ok(rows)
}

/// What is known after the acts of a function.
fn after_acts<'a>(alloc: Global, hypotheses: &'a [Row], acts: &[Act]) -> Result<Point<'a>, NoMemory>
    requires { AreSmallActs acts.now }
    ensures { IfOk result
        (λ point. known_of point ≡ known_after_acts (map form_of hypotheses.now) acts.now) }
{
    let mut point = Point::new(alloc, Start::Own, hypotheses);
    for act in acts {
        point.act(alloc, act)?;
    }
    Ok(point)
}

/// The verdict of the constructor, of each function in order, and of `(gift)`.
pub fn judge(alloc: Global, contract: &Contract<'_>) -> Result<Vec<Verdict>, NoMemory>
    requires { IsContract contract.now }
    ensures { IfOk result
        (λ verdicts. AreVerdicts contract.now.invariants (judged_of contract.now) verdicts.items) }
{
    let invariants = contract.invariants.as_slice();
    let rows = rows_at_entry(alloc, invariants)?;
    let hypotheses = rows.as_slice();
    let mut verdicts = Vec::new(alloc);
    verdicts.push(Point::new(alloc, Start::Zeros, &[]).verdict(alloc, invariants)?)?;
    for function in contract.functions.as_slice() {
        let end = after_acts(alloc, hypotheses, function.acts.as_slice())?;
        verdicts.push(end.verdict(alloc, invariants)?)?;
    }
    let gift = Point::new(alloc, Start::Own, hypotheses);
    verdicts.push(gift.verdict(alloc, invariants)?)?;
    Ok(verdicts)
}
