//! The tests of expressions by themselves.
#![tactic(auto)]

ghost use Rattle.std.specs.Prelude.{◌≡◌, ◌&&◌, ◌^◌, not, nat_le, map};
ghost use Rattle.sv_plain.specs.PlainExprs.{suffixes};
ghost use Rattle.sv_plain.specs.ExprFolds.{plain_suffix};
ghost use Rattle.sv_plain.specs.ShownExprs.{expr_of, kind_of};
ghost use Rattle.sv_literal.specs.Literals.{hexadecimal_worth, is_address as address};
ghost use Rattle.sv_form_rules.specs.NodeRules.{is_wide, is_address_literal, is_inner, steps, is_step, is_last, steps_inside, assigns_inside, is_literal, is_power, raises_others};

use crate::texts::text_of;
use sv_ast::{Suffix, SuffixKind, UnaryOp};
use sv_literal::{decimal_value, hexadecimal_value, is_address};
use sv_plain::view::{Kind, Node};
use sv_text::Names;
use sv_visit::Role;

/// Whether it is a number of 2^128 or more, and no address.
pub fn is_wide(names: &Names, k: Kind<'_>) -> bool
    ensures { result ≡ is_wide names.now (kind_of k.entry) }
{
    match k {
        Kind::Number { digits, unit } => decimal_value(text_of(names, *digits), *unit).is_none(),
        Kind::Hexadecimal(digits) => is_wide_hexadecimal(text_of(names, *digits)),
        _ => false,
    }
}

/// Whether it is an address.
pub fn is_address_literal(names: &Names, k: Kind<'_>) -> bool
    ensures { result ≡ is_address_literal names.now (kind_of k.entry) }
{
    match k {
        Kind::Hexadecimal(digits) => is_address(text_of(names, *digits)),
        _ => false,
    }
}

/// Whether it has a `++` or `--` that is no statement and no part of the header of a `for`.
pub fn assigns_inside(role: Role, k: Kind<'_>) -> bool
    ensures { result ≡ assigns_inside role (kind_of k.entry) }
{
    match k {
        Kind::Prefix { op, operand: _ } => steps(op) && is_inner(role),
        Kind::Applied { head: _, suffixes } => steps_inside(is_inner(role), suffixes),
        _ => false,
    }
}

/// Whether it is a power of anything but literals.
pub fn raises_others(k: Kind<'_>) -> bool
    ensures { result ≡ raises_others (kind_of k.entry) }
{
    match k {
        Kind::Power { base, exponent } => {
            let exponent = Node::Power(exponent);
            !(is_literal(Node::Post(base)) && (is_literal(exponent) || is_power(exponent)))
        }
        _ => false,
    }
}

/// Whether it is a hexadecimal number of 2^128 or more, and no address.
fn is_wide_hexadecimal(text: &[u8]) -> bool
    ensures { result ≡ (not (address text.now) && nat_le (2 ^ 128) (hexadecimal_worth text.now)) }
{
    !is_address(text) && hexadecimal_value(text).is_none()
}

fn is_inner(role: Role) -> bool
    ensures { result ≡ is_inner role }
{
    match role {
        Role::Inner => true,
        Role::Statement => false,
    }
}

/// Whether it is `++` or `--`.
pub fn steps(op: UnaryOp) -> bool
    ensures { result ≡ steps op }
{
    match op {
        UnaryOp::Increment | UnaryOp::Decrement => true,
        UnaryOp::Negate | UnaryOp::Not => false,
    }
}

fn is_step(s: &Suffix) -> bool
    ensures { result ≡ is_step (plain_suffix s.now) }
{
    match &s.kind {
        SuffixKind::Increment => true,
        SuffixKind::Decrement => true,
        SuffixKind::Index(_) => false,
        SuffixKind::Member(_) => false,
        SuffixKind::Call(_) => false,
        SuffixKind::Value(_) => false,
    }
}

/// Whether there are no suffixes.
fn is_last(list: &[Suffix]) -> bool
    ensures { result ≡ is_last (suffixes (map plain_suffix list.now)) }
{
    match list.split_first() {
        None => true,
        Some(_) => false,
    }
}

/// Whether a suffix is a `++` or a `--`; where the whole is a statement, the last one aside.
fn steps_inside(inner: bool, list: &[Suffix]) -> bool
    ensures { result ≡ steps_inside inner (suffixes (map plain_suffix list.now)) }
{
    let mut left = list;
    'suffixes: while let Some((s, more)) = left.split_first() {
        if is_step(s) && (inner || !is_last(more)) {
            return true;
        }
        left = more;
    }
    false
}

fn is_literal(e: Node<'_>) -> bool
    ensures { result ≡ is_literal (expr_of e.entry) }
{
    match e.view().kind {
        Kind::Number { digits: _, unit: _ } => true,
        Kind::Hexadecimal(_) => true,
        Kind::Text(_) => true,
        Kind::Truth(_) => true,
        Kind::Paren(inner) => is_literal(Node::Expr(inner)),
        _ => false,
    }
}

fn is_power(e: Node<'_>) -> bool
    ensures { result ≡ is_power (expr_of e.entry) }
{
    match e.view().kind {
        Kind::Power {
            base: _,
            exponent: _,
        } => true,
        _ => false,
    }
}
