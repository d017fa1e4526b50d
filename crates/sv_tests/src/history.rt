ghost use Rattle.std.specs.Prelude.{IfOk};
ghost use Rattle.sv_first_form.specs.FirstForm.{IsContract};

use std::alloc::Global;
use std::process::Abort;
use std::test::Fail;
use sv_first_form::Contract;
use sv_first_form::parse::parse;
use sv_first_judge::Wide;
use sv_first_judge::history::{Event, State, marks};
use sv_lex::lex;

const EXAMPLE: &[u8] = b"/// @notice invariant a == b
contract C {
    uint256 a; uint256 b;
    function up() public { a = a + 1; b = b + 1; }
    function set() public { a = 1; }
    function double() public { a = a + a; }
    function grow() public { a = a + a + 1; }
    function same() public { require(a == b); b = 5; }
}
";

fn example(alloc: Global) -> Result<Contract<'static>, Fail>
    ensures { IfOk result IsContract }
{
    let tokens = lex(alloc, EXAMPLE)?;
    let contract = parse(alloc, tokens.as_slice())?;
    Ok(contract)
}

const UP: usize = 0;

const SET: usize = 1;

const DOUBLE: usize = 2;

const GROW: usize = 3;

const SAME: usize = 4;

const ABSENT: usize = 5;

const fn call(function: usize) -> Event {
    with_gas(function, 16)
}

const fn with_gas(function: usize, gas: u64) -> Event {
    Event::Call { function, gas }
}

/// A mark's numbers of `a` and `b`, and its balance.
#[derive(Drop)]
struct Mark(u64, u64, u128);

fn expect_mark(rt: &impl Abort, state: &State, mark: &Mark) {
    let Mark(a, b, balance) = mark;
    let values = [Wide::from_u64(*a), Wide::from_u64(*b)];
    assert_eq!(rt; state.values.as_slice(), values.as_slice());
    assert_eq!(rt; state.balance, *balance);
}

fn expect_marks(
    rt: &impl Abort,
    alloc: Global,
    events: &[Event],
    want: &[Mark],
) -> Result<(), Fail> {
    let states = marks(alloc, &example(alloc)?, 7, events)?;
    assert_eq!(rt; states.len(), want.len());
    for (state, mark) in states.iter().zip(want) {
        expect_mark(rt, state, mark);
    }
    Ok(())
}

#[test]
fn construction_has_two_marks(rt: HostRuntime) -> Result<(), Fail> {
    expect_marks(&rt, rt.alloc(), &[], &[Mark(0, 0, 7), Mark(0, 0, 7)])?;
    Ok(())
}

#[test]
fn calls_and_gifts(rt: HostRuntime) -> Result<(), Fail> {
    let events = [
        with_gas(UP, 2),
        with_gas(UP, 1),
        Event::Gift(5),
        with_gas(UP, 0),
        call(ABSENT),
        call(UP),
        Event::Gift(u64::MAX),
    ];
    let want = [
        Mark(0, 0, 7),
        Mark(0, 0, 7),
        // enough gas for both acts
        Mark(1, 1, 7),
        Mark(1, 1, 7),
        // none for the second
        Mark(1, 1, 7),
        // a gift
        Mark(1, 1, 12),
        // no gas
        Mark(1, 1, 12),
        // no such function
        Mark(1, 1, 12),
        // gas to spare
        Mark(2, 2, 12),
        Mark(2, 2, 12),
        // a gift
        Mark(2, 2, 18446744073709551627),
    ];
    expect_marks(&rt, rt.alloc(), &events, &want)?;
    Ok(())
}

#[test]
fn requirements(rt: HostRuntime) -> Result<(), Fail> {
    let want = [
        Mark(0, 0, 7),
        Mark(0, 0, 7),
        // 0 == 0
        Mark(0, 5, 7),
        Mark(0, 5, 7),
        // 0 == 5
        Mark(0, 5, 7),
    ];
    expect_marks(&rt, rt.alloc(), &[call(SAME), call(SAME)], &want)?;
    Ok(())
}

/// The history has this many marks, and `a` is this at the last.
fn expect_last(
    rt: &impl Abort,
    alloc: Global,
    events: &[Event],
    count: usize,
    a: Wide,
) -> Result<(), Fail> {
    let states = marks(alloc, &example(alloc)?, 7, events)?;
    assert_eq!(rt; states.len(), count);
    let last = states.last().and_then(|state| state.values.get(0)).copied();
    assert_eq!(rt; last, Some(a));
    Ok(())
}

#[test]
fn doubling_ends_below_the_range(rt: HostRuntime) -> Result<(), Fail> {
    let mut events = vec![in rt.alloc(); call(DOUBLE); 256]?;
    events[0] = call(SET);
    // 2^255 after two marks each
    expect_last(
        &rt,
        rt.alloc(),
        &events,
        2 + 2 * 256,
        Wide::new(1 << 127, 0),
    )?;
    events.push(call(DOUBLE))?;
    // 2^256 is out of range: one mark more
    expect_last(
        &rt,
        rt.alloc(),
        &events,
        2 + 2 * 256 + 1,
        Wide::new(1 << 127, 0),
    )?;
    Ok(())
}

#[test]
fn the_last_number_is_reached(rt: HostRuntime) -> Result<(), Fail> {
    let most = Wide::new(u128::MAX, u128::MAX);
    let mut events = vec![in rt.alloc(); call(GROW); 256]?;
    expect_last(&rt, rt.alloc(), &events, 2 + 2 * 256, most)?;
    events.push(call(GROW))?;
    expect_last(&rt, rt.alloc(), &events, 2 + 2 * 256 + 1, most)?;
    Ok(())
}
