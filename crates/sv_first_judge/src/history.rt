ghost use Rattle.std.specs.Prelude.{◌≡◌, ◌+◌, ◌<◌, ◌≤◌, ◌^◌, [], ◌∷◌, ◌++◌, ◌↔◌, All, IfOk, IfSome, IsTrue, OnOk, SomeIff, length, map, slice_get};
ghost use Rattle.std.specs.Option.{option_map};
ghost use Rattle.sv_first_form.specs.FirstForm.{IsAct, IsContract, IsEquation, IsItem};
ghost use Rattle.sv_first_judge.specs.History.{after_act, after_call, constructed, item_value, marks_of, range, run, run_of, sum_value};
ghost use Rattle.sv_first_judge.specs.Marks.{history_of, state_of, values_of};
ghost use Rattle.sv_first_judge.specs.Steps.{IsMet, IsStateOf, Leaves, Passes, PassesEvent};

use crate::wide::Wide;
use sqlite_items::Items;
use std::alloc::Global;
use sv_first_form::{Act, Contract, Equation, Item};
use sv_text::NoMemory;

/// What happens after construction.
#[derive(Clone, Copy, Debug, PartialEq, Eq)]
pub enum Event {
    /// A call of a function, by its place, with an amount of gas.
    Call { function: usize, gas: u64 },
    /// Ether that arrives by force.
    Gift(u64),
}

/// The numbers of a contract's variables, and its balance.
#[derive(Debug, Drop)]
pub struct State {
    pub values: Items<Wide>,
    pub balance: u128,
}

impl State {
    fn copy(&self, alloc: Global) -> Result<State, NoMemory>
        ensures { IfOk result (λ s. s ≡ self.now) }
    {
        let values = Items::from_slice(alloc, self.values.as_slice())?;
        let balance = self.balance;
        Ok(State { values, balance })
    }
}

fn value_of_item(values: &[Wide], item: Item) -> Wide
    requires { IsItem (length values.now) item }
    ensures { result ≡ item_value (values_of values.now) item }
{
    match item {
        Item::Variable(v) => values[v],
        Item::Number(n) => Wide::from_u64(n),
    }
}

/// The value of a sum, where it is in range.
fn value_of_sum(values: &[Wide], items: &[Item]) -> Option<Wide>
    requires { All (IsItem (length values.now)) items.now }
    ensures { SomeIff result (sum_value (values_of values.now) items.now < range)
        (sum_value (values_of values.now) items.now) }
{
    let mut sum = Wide::from_u64(0);
    for item in items {
        sum = sum.checked_add(value_of_item(values, *item))?;
    }
    Some(sum)
}

/// Whether the sides are in range and equal.
fn is_true(values: &[Wide], equation: &Equation) -> bool
    requires { IsEquation (length values.now) equation.now }
    ensures { IsTrue result ↔ IsMet (values_of values.now) equation.now }
{
    let left = value_of_sum(values, equation.left.as_slice());
    let right = value_of_sum(values, equation.right.as_slice());
    left.is_some() && left == right
}

/// The values after one act, or none where it reverts.
fn values_after_act(mut values: Items<Wide>, act: &Act) -> Option<Items<Wide>>
    requires { IsAct (length values) act.now }
    ensures values { option_map values_of result ≡ after_act (values_of values) act.now }
    ensures len { IfSome result (λ next. length next ≡ length values) }
{
    match act {
        Act::Assign(variable, sum) => {
            let value = value_of_sum(values.as_slice(), sum.as_slice())?;
            values.set(*variable, value);
            Some(values)
        }
        Act::Require(equation) => {
            if is_true(values.as_slice(), equation) {
                Some(values)
            } else {
                None
            }
        }
    }
}

/// The values after acts, each for one unit of gas, or none where one reverts or finds no gas.
fn values_after_acts(acts: &[Act], mut gas: u64, mut values: Items<Wide>) -> Option<Items<Wide>>
    requires { All (IsAct (length values)) acts.now }
    ensures values { option_map values_of result ≡ run acts.now gas (values_of values) }
    ensures len { IfSome result (λ end. length end ≡ length values) }
{
    for act in acts {
        if gas == 0 {
            return None;
        }
        gas -= 1;
        values = values_after_act(values, act)?;
    }
    Some(values)
}

/// The values after a call, or none where it reverts.
fn values_after_call(
    alloc: Global,
    contract: &Contract<'_>,
    state: &State,
    function: usize,
    gas: u64,
) -> Result<Option<Items<Wide>>, NoMemory>
    requires { IsStateOf contract.now state.now }
    ensures { IfOk result (Leaves state.now.values
        (run_of (slice_get contract.now.functions function) gas (values_of state.now.values))) }
{
    match contract.functions.get(function) {
        Some(f) => {
            let start = Items::from_slice(alloc, state.values.as_slice())?;
            Ok(values_after_acts(f.acts.as_slice(), gas, start))
        }
        None => Ok(None),
    }
}

fn add_mark(alloc: Global, state: &State, marks: &mut Vec<State>) -> Result<(), NoMemory>
    ensures { OnOk result
        (map state_of marks.new.items ≡ map state_of marks.old.items ++ state_of state.now ∷ []) }
{
    marks.push(state.copy(alloc)?)?;
    Ok(())
}

/// The state after a call that ended with these values or reverted, whose marks are added to `marks`.
fn state_after_call(
    alloc: Global,
    mut state: State,
    end: Option<Items<Wide>>,
    marks: &mut Vec<State>,
) -> Result<State, NoMemory>
    requires { IfSome end (λ values. length values ≡ length state.values) }
    ensures { IfOk result (λ next. Passes (after_call (state_of state) (option_map values_of end))
        state next marks.old.items marks.new.items) }
{
    if let Some(values) = end {
        state.values = values;
        add_mark(alloc, &state, marks)?;
    }
    add_mark(alloc, &state, marks)?;
    Ok(state)
}

/// The state after an event, whose marks are added to `marks`.
fn state_after_event(
    alloc: Global,
    contract: &Contract<'_>,
    mut state: State,
    event: Event,
    marks: &mut Vec<State>,
) -> Result<State, NoMemory>
    requires { IsStateOf contract.now state × (state.balance + 2 ^ 64 ≤ 2 ^ 128) }
    ensures { IfOk result
        (λ next. PassesEvent contract.now event state next marks.old.items marks.new.items) }
{
    match event {
        Event::Call { function, gas } => {
            let end = values_after_call(alloc, contract, &state, function, gas)?;
            state_after_call(alloc, state, end, marks)
        }
        Event::Gift(amount) => {
            state.balance += u128::from(amount);
            add_mark(alloc, &state, marks)?;
            Ok(state)
        }
    }
}

fn state_at_construction(
    alloc: Global,
    contract: &Contract<'_>,
    balance: u64,
) -> Result<State, NoMemory>
    ensures state { IfOk result (λ s. state_of s ≡ constructed (history_of balance [])) }
    ensures len { IfOk result (λ s. length s.values ≡ length contract.now.variables) }
{
    let zeros = vec![in alloc; Wide::from_u64(0); contract.variables.len()]?;
    Ok(State {
        values: Items::from_vec(zeros),
        balance: u128::from(balance),
    })
}

/// The marks of the history of this starting balance and these events.
pub fn marks(
    alloc: Global,
    contract: &Contract<'_>,
    balance: u64,
    events: &[Event],
) -> Result<Vec<State>, NoMemory>
    requires { IsContract contract.now }
    ensures { IfOk result
        (λ marks. map state_of marks.items ≡ marks_of contract.now (history_of balance events.now)) }
{
    let mut state = state_at_construction(alloc, contract, balance)?;
    let mut marks = Vec::new(alloc);
    add_mark(alloc, &state, &mut marks)?;
    add_mark(alloc, &state, &mut marks)?;
    for event in events {
        state = state_after_event(alloc, contract, state, *event, &mut marks)?;
    }
    Ok(marks)
}
