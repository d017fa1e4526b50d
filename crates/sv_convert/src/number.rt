ghost use Rattle.std.specs.Prelude.{◌≡◌, ◌^◌, nat_lt, nat_le};
ghost use Rattle.sv_convert.specs.Conversions.{holds, takes_number, takes_by_name};

use crate::convert::{Setting, is_integer, mixes};
use sv_text_type::TextType;

fn is_below_power(magnitude: u128, bits: u16) -> bool
    ensures { result ≡ nat_lt magnitude (2 ^ bits) }
{
    match 2u128.checked_pow(bits as u32) {
        Some(power) => magnitude < power,
        None => true,
    }
}

fn is_at_most_power(magnitude: u128, bits: u16) -> bool
    ensures { result ≡ nat_le magnitude (2 ^ bits) }
{
    match 2u128.checked_pow(bits as u32) {
        Some(power) => magnitude <= power,
        None => true,
    }
}

/// Whether an integer type holds a number. No other type holds one. `negative` with the magnitude 0 is 0.
pub fn holds(t: TextType, negative: bool, magnitude: u128) -> bool
    ensures { result ≡ holds t negative magnitude }
{
    match t {
        TextType::Uint(bits) => (!negative || magnitude == 0) && is_below_power(magnitude, bits),
        TextType::Int(bits) => {
            let bits = bits.saturating_sub(1);
            if negative {
                is_at_most_power(magnitude, bits)
            } else {
                is_below_power(magnitude, bits)
            }
        }
        _ => false,
    }
}

/// Whether a literal expression may take the type.
pub fn takes_number(setting: Setting, to: TextType, negative: bool, magnitude: u128) -> bool
    ensures { result ≡ takes_number setting to negative magnitude }
{
    if mixes(setting) {
        is_integer(to)
    } else {
        holds(to, negative, magnitude)
    }
}

/// Whether a literal expression may be converted to the type by its name.
pub fn takes_by_name(setting: Setting, to: TextType, negative: bool, magnitude: u128) -> bool
    ensures { result ≡ takes_by_name setting to negative magnitude }
{
    match to {
        TextType::Enum(_) => true,
        TextType::Address(payable) => {
            if payable || mixes(setting) {
                magnitude == 0
            } else {
                (!negative || magnitude == 0) && is_below_power(magnitude, 160)
            }
        }
        _ => holds(to, negative, magnitude),
    }
}
