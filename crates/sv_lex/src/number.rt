//! Decimal and hexadecimal numbers.

ghost use Rattle.std.specs.Prelude.{◌≡◌, ◌++◌, ◌≤◌, ◌<◌, ℕ, List, true, length, take, drop};
ghost use Rattle.sv_lex.specs.Bytes.{is_digit, DoesBegin};
ghost use Rattle.sv_lex.specs.ByteTests.{is_of};
ghost use Rattle.sv_lex.specs.Forms.{IsDecimal, IsHexadecimal, IsExponent, is_grouped, is_group};
ghost use Rattle.sv_lex.specs.Longest.{IsLongestSuch};

use crate::bytes::{Class, run_len};

/// The length of the longest front of the text that is digits, with `_` between two digits allowed; 0 where none is.
pub fn group_len(digit: Class, text: &[u8]) -> usize
    ensures { IsLongestSuch (λ front. is_grouped (is_of digit) front ≡ true) text.now result }
{
    let mut len = 0;
    for (i, byte) in text.iter().enumerate() {
        if digit.has(*byte) {
            len = i + 1;
        } else if *byte != b'_' || len < i || i == 0 {
            return len;
        }
    }
    len
}

/// The length of the longest exponent that the text begins with; 0 is the length of none.
pub fn exponent_len(text: &[u8]) -> usize
    ensures { IsLongestSuch IsExponent text.now result }
{
    let Some(digits) = text.strip_prefix(b"e") else {
        return 0;
    };
    match run_len(Class::Digit, digits).min(2) {
        0 => 0,
        len => len + 1,
    }
}

/// The length of the longest decimal number that the text begins with.
pub fn decimal_len(text: &[u8]) -> usize
    requires { DoesBegin is_digit text.now }
    ensures { IsLongestSuch IsDecimal text.now result }
{
    let whole = if text[0] == b'0' {
        1
    } else {
        group_len(Class::Digit, text)
    };
    whole + exponent_len(&text[whole..])
}

/// The length of the longest hexadecimal number that the text begins with; 0 where none is.
pub fn hexadecimal_len(text: &[u8]) -> usize
    ensures { IsLongestSuch IsHexadecimal text.now result }
{
    let Some(digits) = text.strip_prefix(b"0x") else {
        return 0;
    };
    match group_len(Class::HexDigit, digits) {
        0 => 0,
        len => len + 2,
    }
}
