//! What number literals are worth, and which hexadecimal literals are addresses.
//!
//! Promises: `decimal_value` and `hexadecimal_value` give the exact value, and none exactly where it is 2^128 or more;
//! `is_address` says whether a hexadecimal literal has exactly 40 digits. No call takes memory.
//! Stands on: `sv_ast`, `sv_text`.
//! Read first: `specs/Literals.antt`.
#![tactic(auto)]

ghost use Rattle.std.specs.Prelude.{◌≡◌, ◌≤◌, ◌<◌, ◌+◌, ◌*◌, ◌^◌, SomeIff, length, drop};
ghost use Rattle.sv_literal.specs.Literals.{digit, with_digit, digits_worth, before_exponent, unit_worth, kind_worth, decimal_worth, hexadecimal_worth, hexadecimal_digits, is_address, is_digit};

use sv_ast::{Unit10, Unit10Kind};

/// What a digit is worth.
fn digit(b: u8) -> u128
    ensures { result ≡ digit b }
{
    if 97 <= b {
        (b - 87) as u128
    } else if 65 <= b {
        (b - 55) as u128
    } else {
        b.saturating_sub(48) as u128
    }
}

/// What digits that are worth `n` and a byte behind them are worth, or none from 2^128 on.
fn with_digit(base: u128, n: u128, b: u8) -> Option<u128>
    ensures { SomeIff result (with_digit base n b < 2 ^ 128) (with_digit base n b) }
{
    if b == b'_' {
        return Some(n);
    }
    let Some(shifted) = n.checked_mul(base) else {
        return None;
    };
    shifted.checked_add(digit(b))
}

/// What digits of a base are worth, or none from 2^128 on.
fn digits_value(base: u128, text: &[u8]) -> Option<u128>
    requires { 1 ≤ base }
    ensures { SomeIff result (digits_worth base text.now < 2 ^ 128) (digits_worth base text.now) }
{
    let mut n = 0u128;
    for b in text {
        let Some(more) = with_digit(base, n, *b) else {
            return None;
        };
        n = more;
    }
    Some(n)
}

/// A number times a power of ten, or none from 2^128 on.
fn scaled(n: u128, tens: u128) -> Option<u128>
    ensures { SomeIff result (n * 10 ^ tens < 2 ^ 128) (n * 10 ^ tens) }
{
    let mut scaled = n;
    let mut left = tens;
    while left != 0 {
        let Some(more) = scaled.checked_mul(10) else {
            return None;
        };
        scaled = more;
        left -= 1;
    }
    Some(scaled)
}

/// How many bytes stand before the first `e`, or in all.
fn before_exponent(text: &[u8]) -> usize
    ensures count { result ≡ before_exponent text.now }
    ensures within { result ≤ length text.now }
{
    let mut count = 0usize;
    for b in text {
        if *b == b'e' {
            return count;
        }
        count += 1;
    }
    count
}

/// What a unit is worth.
fn unit_value(unit: Option<Unit10>) -> u128
    ensures { result ≡ unit_worth unit }
{
    match unit {
        None => 1,
        Some(u) => kind_value(u.kind),
    }
}

fn kind_value(kind: Unit10Kind) -> u128
    ensures { result ≡ kind_worth kind }
{
    match kind {
        Unit10Kind::Wei => 1,
        Unit10Kind::Gwei => 1_000_000_000,
        Unit10Kind::Ether => 1_000_000_000_000_000_000,
        Unit10Kind::Seconds => 1,
        Unit10Kind::Minutes => 60,
        Unit10Kind::Hours => 3_600,
        Unit10Kind::Days => 86_400,
        Unit10Kind::Weeks => 604_800,
    }
}

/// What the digits behind the `e` at a place are worth, or none from 2^128 on.
fn exponent_value(text: &[u8], at: usize) -> Option<u128>
    requires { at ≤ length text.now }
    ensures { let n = digits_worth 10 (drop (at + 1) text.now) in SomeIff result (n < 2 ^ 128) n }
{
    match text[at..].split_first() {
        None => Some(0),
        Some((_, digits)) => digits_value(10, digits),
    }
}

/// What a decimal number with its unit is worth, or none from 2^128 on.
pub fn decimal_value(text: &[u8], unit: Option<Unit10>) -> Option<u128>
    ensures { SomeIff result (decimal_worth text.now unit < 2 ^ 128) (decimal_worth text.now unit) }
{
    let at = before_exponent(text);
    let Some(whole) = digits_value(10, &text[..at]) else {
        return None;
    };
    if whole == 0 {
        return Some(0);
    }
    let Some(tens) = exponent_value(text, at) else {
        return None;
    };
    let Some(number) = scaled(whole, tens) else {
        return None;
    };
    number.checked_mul(unit_value(unit))
}

/// What a hexadecimal number is worth, or none from 2^128 on.
pub fn hexadecimal_value(text: &[u8]) -> Option<u128>
    ensures { SomeIff result (hexadecimal_worth text.now < 2 ^ 128) (hexadecimal_worth text.now) }
{
    digits_value(16, behind_prefix(text))
}

/// What stands behind `0x`.
fn behind_prefix(text: &[u8]) -> &[u8]
    ensures { result.now ≡ hexadecimal_digits text.now }
{
    match text.get(2..) {
        None => &[],
        Some(digits) => digits,
    }
}

/// Whether a hexadecimal number is an address.
pub fn is_address(text: &[u8]) -> bool
    ensures { result ≡ is_address text.now }
{
    let mut count = 0usize;
    for b in behind_prefix(text) {
        if *b != b'_' {
            count += 1;
        }
    }
    count == 40
}
