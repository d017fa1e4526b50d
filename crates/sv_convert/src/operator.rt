ghost use Rattle.std.specs.Prelude.{◌≡◌};
ghost use Rattle.sv_convert.specs.OperatorTypes.{unary_takes, takes_type, takes_numbers, takes, types_suit, suit, is_literal, left_is_wrong, right_is_wrong, right_is_wider, is_test, result_type};

use crate::convert::{Setting, converts, is_bool, is_enum, is_integer, is_signed, mixes};
use crate::number::takes_number;
use sqlite_items::Items;
use sv_text_type::TextType;

/// An operator before one operand.
#[derive(Clone, Copy, Debug, PartialEq, Eq, Drop)]
pub enum Unary {
    /// `!`.
    Not,
    /// `-`.
    Minus,
}

/// Operators between two operands that take and give the same types.
#[derive(Clone, Copy, Debug, PartialEq, Eq, Drop)]
pub enum Binary {
    /// `+ - * / %`.
    Arithmetic,
    /// `==` and `!=`.
    Equality,
    /// `< > <= >=`.
    Order,
    /// `&&` and `||`.
    Logic,
    /// The two arms of a `?:`.
    Choice,
}

/// An operand, or an arm of a `?:`.
#[derive(Clone, Copy, Debug, PartialEq, Eq, Drop)]
pub enum Operand {
    /// It has a type; true where it is built of literals alone, as `true` and `1 < 2` are.
    Typed(TextType, bool),
    /// A literal expression of that magnitude, negative where the flag says so. It takes the type of its partner.
    Number(bool, u128),
}

/// What type a result has.
#[derive(Clone, Copy, Debug, PartialEq, Eq, Drop)]
pub enum Outcome {
    /// `bool`.
    Truth,
    /// The left operand's type; of two numbers the result is one too.
    Left,
    /// The right operand's type.
    Right,
}

/// Which operands are at fault.
#[derive(Clone, Copy, Debug, PartialEq, Eq, Drop)]
pub struct Faults {
    pub left: bool,
    pub right: bool,
}

/// Whether an operator takes an operand.
pub fn unary_takes(setting: Setting, op: Unary, operand: Operand) -> bool
    ensures { result ≡ unary_takes setting op operand }
{
    match op {
        Unary::Not => match operand {
            Operand::Typed(t, _) => is_bool(t),
            Operand::Number(_, _) => false,
        },
        Unary::Minus => match operand {
            Operand::Typed(t, _) => is_signed(t) || (mixes(setting) && is_integer(t)),
            Operand::Number(_, _) => true,
        },
    }
}

fn takes_type(op: Binary, t: TextType) -> bool
    ensures { result ≡ takes_type op t }
{
    match op {
        Binary::Arithmetic => is_integer(t),
        Binary::Equality => t.is_value(),
        Binary::Order => is_integer(t) || is_enum(t),
        Binary::Logic => is_bool(t),
        Binary::Choice => true,
    }
}

fn takes_numbers(op: Binary) -> bool
    ensures { result ≡ takes_numbers op }
{
    match op {
        Binary::Logic => false,
        _ => true,
    }
}

/// Whether an operator ever takes an operand on one of its sides.
pub fn takes(op: Binary, operand: Operand) -> bool
    ensures { result ≡ takes op operand }
{
    match operand {
        Operand::Typed(t, _) => takes_type(op, t),
        Operand::Number(_, _) => takes_numbers(op),
    }
}

fn types_suit(setting: Setting, bases: &[Items<u32>], left: TextType, right: TextType) -> bool
    ensures { result ≡ types_suit setting bases.now left right }
{
    converts(bases, left, right)
        || converts(bases, right, left)
        || (mixes(setting) && is_integer(left) && is_integer(right))
}

/// Whether two operands suit each other: one has the type of the other, or may take it.
pub fn suit(setting: Setting, bases: &[Items<u32>], left: Operand, right: Operand) -> bool
    ensures { result ≡ suit setting bases.now left right }
{
    match left {
        Operand::Typed(t, _) => match right {
            Operand::Typed(other, _) => types_suit(setting, bases, t, other),
            Operand::Number(negative, m) => takes_number(setting, t, negative, m),
        },
        Operand::Number(negative, m) => match right {
            Operand::Typed(other, _) => takes_number(setting, other, negative, m),
            Operand::Number(_, _) => true,
        },
    }
}

fn is_literal(operand: Operand) -> bool
    ensures { result ≡ is_literal operand }
{
    match operand {
        Operand::Typed(_, literal) => literal,
        Operand::Number(_, _) => true,
    }
}

/// Which of two operands is at fault: one that the operator never takes; else, where the two don't suit each other, the one that alone is a literal expression, or the right one.
pub fn at_fault(
    setting: Setting,
    bases: &[Items<u32>],
    op: Binary,
    left: Operand,
    right: Operand,
) -> Faults
    ensures left { result.left ≡ left_is_wrong setting bases.now op left right }
    ensures right { result.right ≡ right_is_wrong setting bases.now op left right }
{
    let takes_left = takes(op, left);
    let takes_right = takes(op, right);
    let apart = !suit(setting, bases, left, right);
    let left_alone = is_literal(left) && !is_literal(right);
    Faults {
        left: !takes_left || (takes_right && apart && left_alone),
        right: !takes_right || (takes_left && apart && !left_alone),
    }
}

fn right_is_wider(bases: &[Items<u32>], left: Operand, right: Operand) -> bool
    ensures { result ≡ right_is_wider bases.now left right }
{
    match left {
        Operand::Typed(t, _) => match right {
            Operand::Typed(other, _) => converts(bases, t, other),
            Operand::Number(_, _) => false,
        },
        Operand::Number(_, _) => match right {
            Operand::Typed(_, _) => true,
            Operand::Number(_, _) => false,
        },
    }
}

fn is_test(op: Binary) -> bool
    ensures { result ≡ is_test op }
{
    match op {
        Binary::Equality | Binary::Order | Binary::Logic => true,
        _ => false,
    }
}

/// The type of a result, where it has one. Tests give truth values whatever is wrong inside. In annotations two integers of which none converts to the other have the left one's type.
pub fn result_type(
    setting: Setting,
    bases: &[Items<u32>],
    op: Binary,
    left: Operand,
    right: Operand,
) -> Option<Outcome>
    ensures { result ≡ result_type setting bases.now op left right }
{
    if is_test(op) {
        return Some(Outcome::Truth);
    }
    if !takes(op, left) || !takes(op, right) || !suit(setting, bases, left, right) {
        return None;
    }
    if right_is_wider(bases, left, right) {
        Some(Outcome::Right)
    } else {
        Some(Outcome::Left)
    }
}
