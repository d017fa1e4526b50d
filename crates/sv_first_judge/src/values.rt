ghost use Rattle.std.specs.Prelude.{◌≤◌, All, length};
ghost use Rattle.sv_first_judge.specs.Rows.{weight_of};
ghost use Rattle.sv_first_judge.specs.Weights.{most_after};

use crate::row::Row;
use sqlite_items::Items;
use std::alloc::Global;
use sv_first_form::{Equation, Item};
use sv_text::NoMemory;

/// What a variable is worth before it is assigned.
#[derive(Clone, Copy, Debug)]
pub enum Start {
    /// Nothing.
    Zeros,
    /// Its value at the function's entry.
    Own,
}

/// A variable and the row of the value that it was assigned.
#[derive(Drop)]
pub struct Assigned {
    variable: usize,
    row: Row,
}

/// The values of the variables at a point of a function, of at most 16 assignments.
#[derive(Drop)]
pub struct Values {
    start: Start,
    assigned: Items<Assigned>,
    ghost few: { length assigned ≤ 16 },
    ghost light: { All (λ a. weight_of a.row ≤ most_after (length assigned)) assigned },
}

impl Values {
    ghost use Rattle.std.specs.Prelude.{◌≡◌, ◌==◌, ◌+◌, ◌<◌, ◌≤◌, if◌then◌else◌, IfOk, MatchOption, OnOk};
    ghost use Rattle.sv_first_judge.specs.Rows.{form_of, weight_of, AddsForm};
    ghost use Rattle.sv_first_judge.specs.Weights.{most_after, weight_limit};
    ghost use Rattle.sv_first_judge.specs.Judging.{sum_form, equation_form};
    ghost use Rattle.sv_first_judge.specs.Assignments.{start_form, values_of, count_of, form_in, most_of, IsRowOf, IsSmall, IsSum, HasSums};

    /// Before any assignment.
    pub fn new(alloc: Global, start: Start) -> Values
        ensures values { values_of result ≡ start_form start }
        ensures count { count_of result ≡ 0 }
    {
        Values {
            start,
            assigned: Items::new(alloc),
        }
    }

    /// Gives a variable a new row.
    pub fn assign(&mut self, variable: usize, row: Row) -> Result<(), NoMemory>
        requires room { count_of self.old < 16 }
        requires light { weight_of row ≤ most_after (count_of self.old + 1) }
        ensures values { OnOk result
            (values_of self.new ≡ (λ v. if v == variable then form_of row else values_of self.old v)) }
        ensures count { OnOk result (count_of self.new ≡ count_of self.old + 1) }
    {
        self.assigned.push(Assigned { variable, row })?;
        Ok(())
    }

    /// The row of a variable that was assigned.
    fn row_of(&self, variable: usize) -> Option<&Row>
        ensures { MatchOption result
            (values_of self.now variable ≡ start_form self.now.start variable)
            (λ row. IsRowOf self.now variable row.now) }
    {
        let mut newest = None;
        for a in self.assigned.as_slice() {
            if a.variable == variable {
                newest = Some(&a.row);
            }
        }
        newest
    }

    fn plus_item(&self, sum: Row, item: Item) -> Result<Row, NoMemory>
        requires small { IsSmall item }
        requires room { weight_of sum + most_of self.now < weight_limit }
        ensures { IfOk result (AddsForm sum (form_in self.now item) (most_of self.now)) }
    {
        match item {
            Item::Number(n) => Ok(sum.plus_number(n)),
            Item::Variable(v) => match self.row_of(v) {
                Some(row) => sum.plus(row),
                None => self.plus_start(sum, v),
            },
        }
    }

    fn plus_start(&self, sum: Row, variable: usize) -> Result<Row, NoMemory>
        requires { weight_of sum + 1 < weight_limit }
        ensures { IfOk result (AddsForm sum (start_form self.now.start variable) 1) }
    {
        match self.start {
            Start::Zeros => Ok(sum),
            Start::Own => sum.plus_variable(variable),
        }
    }

    /// The row of a sum of items.
    pub fn sum_row(&self, alloc: Global, items: &[Item]) -> Result<Row, NoMemory>
        requires { IsSum items.now }
        ensures form { IfOk result (λ row. form_of row ≡ sum_form (values_of self.now) items.now) }
        ensures weight { IfOk result (λ row. weight_of row ≤ most_after (count_of self.now + 1)) }
    {
        let mut sum = Row::zero(alloc);
        for item in items {
            sum = self.plus_item(sum, *item)?;
        }
        Ok(sum)
    }

    /// The row that is zero where the equation is true: the left side less the right.
    pub fn equation_row(&self, alloc: Global, equation: &Equation) -> Result<Row, NoMemory>
        requires { HasSums equation.now }
        ensures { IfOk result (λ row. form_of row ≡ equation_form (values_of self.now) equation.now) }
    {
        let left = self.sum_row(alloc, equation.left.as_slice())?;
        let right = self.sum_row(alloc, equation.right.as_slice())?;
        left.minus(&right)
    }
}
