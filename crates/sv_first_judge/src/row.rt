ghost use Rattle.std.specs.Prelude.{◌≢◌, AllPairs};

use crate::exact::{cancels, exact_sum, negated};
use sqlite_items::Items;
use std::alloc::Global;
use sv_text::NoMemory;

/// A variable and its number in a row.
#[derive(Clone, Copy, Debug)]
pub struct Column {
    pub variable: usize,
    pub number: i128,
}

/// A linear form: a constant, and a column for each variable whose coefficient was ever changed.
#[derive(Drop)]
pub struct Row {
    constant: i128,
    columns: Items<Column>,
    ghost distinct: { AllPairs (λ x y. x.variable ≢ y.variable) columns },
}

impl Row {
    ghost use Rattle.std.specs.Prelude.{◌≡◌, ◌==◌, ◌+◌, ◌<◌, ◌≤◌, ◌↔◌, IsTrue, Any, IfOk, OnOk, position};
    ghost use Rattle.std.specs.Int.RustNames.{unsigned_abs};
    ghost use Rattle.sv_first_judge.specs.LinearForm.{IsSame, IsZero, number_form, variable_form, plus, minus, negation};
    ghost use Rattle.sv_first_judge.specs.Rows.{Agree, form_of, weight_of, coefficient_of, AddsColumn, AddsNumber, HasZeros, IsWithin, CancelsWithin};
    ghost use Rattle.sv_first_judge.specs.Weights.{weight_limit};

    /// The row of the number 0.
    pub fn zero(alloc: Global) -> Row
        ensures form { form_of result ≡ number_form 0 }
        ensures weight { weight_of result ≡ 0 }
    {
        Row {
            constant: 0,
            columns: Items::new(alloc),
        }
    }

    fn place_of(&self, variable: usize) -> Option<usize>
        ensures { result ≡ position (λ c. c.variable == variable) self.now.columns }
    {
        self.columns
            .as_slice()
            .iter()
            .position(|c| c.variable == variable)
    }

    fn coefficient(&self, variable: usize) -> i128
        ensures { result ≡ coefficient_of self.now.columns variable }
    {
        match self.place_of(variable) {
            Some(at) => self.columns.as_slice()[at].number,
            None => 0,
        }
    }

    fn add_number(&mut self, number: i128)
        requires { weight_of self.old + unsigned_abs number < weight_limit }
        ensures sum { AddsNumber self.old self.new number }
        ensures weight { weight_of self.new ≤ weight_of self.old + unsigned_abs number }
    {
        self.constant = exact_sum(self.constant, number);
    }

    fn add_column(&mut self, column: Column) -> Result<(), NoMemory>
        requires { weight_of self.old + unsigned_abs column.number < weight_limit }
        ensures { OnOk result (AddsColumn self.old self.new column) }
    {
        match self.place_of(column.variable) {
            Some(at) => {
                let old = self.columns.as_slice()[at].number;
                let number = exact_sum(old, column.number);
                let variable = column.variable;
                self.columns.set(at, Column { variable, number });
            }
            None => self.columns.push(column)?,
        }
        Ok(())
    }

    /// The sum of the row and a number.
    pub fn plus_number(mut self, number: u64) -> Row
        requires { weight_of self + number < weight_limit }
        ensures form { form_of result ≡ plus (form_of self) (number_form number) }
        ensures weight { weight_of result ≤ weight_of self + number }
    {
        self.add_number(number as i128);
        self
    }

    /// The sum of the row and a variable.
    pub fn plus_variable(mut self, variable: usize) -> Result<Row, NoMemory>
        requires { weight_of self + 1 < weight_limit }
        ensures form { IfOk result (λ row. form_of row ≡ plus (form_of self) (variable_form variable)) }
        ensures weight { IfOk result (λ row. weight_of row ≤ weight_of self + 1) }
    {
        let number = 1;
        self.add_column(Column { variable, number })?;
        Ok(self)
    }

    /// The sum of two rows.
    pub fn plus(mut self, other: &Row) -> Result<Row, NoMemory>
        requires { weight_of self + weight_of other.now < weight_limit }
        ensures form { IfOk result (λ row. form_of row ≡ plus (form_of self) (form_of other.now)) }
        ensures weight { IfOk result (λ row. weight_of row ≤ weight_of self + weight_of other.now) }
    {
        for c in other.columns.as_slice() {
            self.add_column(*c)?;
        }
        self.add_number(other.constant);
        Ok(self)
    }

    /// The first row less the second.
    pub fn minus(mut self, other: &Row) -> Result<Row, NoMemory>
        requires { weight_of self + weight_of other.now < weight_limit }
        ensures { IfOk result (λ row. form_of row ≡ minus (form_of self) (form_of other.now)) }
    {
        for c in other.columns.as_slice() {
            let variable = c.variable;
            let number = negated(c.number);
            self.add_column(Column { variable, number })?;
        }
        self.add_number(negated(other.constant));
        Ok(self)
    }

    /// Whether the constant and each column are 0.
    pub fn is_zero(&self) -> bool
        ensures { IsTrue result ↔ IsZero (form_of self.now) }
    {
        self.constant == 0 && self.has_zeros()
    }

    fn is_same(&self, other: &Row) -> bool
        ensures { IsTrue result ↔ IsSame (form_of self.now) (form_of other.now) }
    {
        self.constant == other.constant && self.has_same_columns(other)
    }

    /// Whether the sum of the two rows is zero.
    fn is_opposite(&self, other: &Row) -> bool
        ensures { IsTrue result ↔ IsSame (form_of self.now) (negation (form_of other.now)) }
    {
        cancels(self.constant, other.constant) && self.has_opposite_columns(other)
    }

    fn agrees(&self, other: &Row) -> bool
        ensures { IsTrue result ↔ Agree (form_of self.now) (form_of other.now) }
    {
        self.is_same(other) || self.is_opposite(other)
    }

    /// Whether one of the rows is the same or opposite.
    pub fn agrees_with_any(&self, rows: &[Row]) -> bool
        ensures { IsTrue result ↔ Any (λ other. Agree (form_of self.now) (form_of other)) rows.now }
    {
        rows.iter().any(|other| self.agrees(other))
    }

    fn has_zeros(&self) -> bool
        ensures { IsTrue result ↔ HasZeros self.now }
    {
        self.columns.as_slice().iter().all(|c| c.number == 0)
    }

    fn has_same_columns(&self, other: &Row) -> bool
        ensures { IsTrue result ↔ (IsWithin self.now other.now × IsWithin other.now self.now) }
    {
        self.is_within(other) && other.is_within(self)
    }

    fn has_opposite_columns(&self, other: &Row) -> bool
        ensures { IsTrue result
            ↔ (CancelsWithin self.now other.now × CancelsWithin other.now self.now) }
    {
        self.cancels_within(other) && other.cancels_within(self)
    }

    fn is_within(&self, other: &Row) -> bool
        ensures { IsTrue result ↔ IsWithin self.now other.now }
    {
        let columns = self.columns.as_slice();
        columns
            .iter()
            .all(|c| c.number == other.coefficient(c.variable))
    }

    fn cancels_within(&self, other: &Row) -> bool
        ensures { IsTrue result ↔ CancelsWithin self.now other.now }
    {
        let columns = self.columns.as_slice();
        columns
            .iter()
            .all(|c| cancels(c.number, other.coefficient(c.variable)))
    }
}
