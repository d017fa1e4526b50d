ghost use Rattle.std.specs.Prelude.{◌≡◌};
ghost use Rattle.sv_convert.specs.Conversions.{is_integer, is_signed, is_enum, is_bool, is_address, is_contract, is_uint160, mixes, derives, converts, turns, turns_to_contract, converts_by_name};

use sqlite_items::Items;
use sv_text_type::TextType;

/// Where an expression stands.
#[derive(Clone, Copy, Debug, PartialEq, Eq, Drop)]
pub enum Setting {
    /// In what is run: a number has the range of its type.
    Code,
    /// In an annotation: integers are exact, and those of all types mix.
    Annotation,
}

/// Whether integers of all types mix there.
pub(crate) fn mixes(setting: Setting) -> bool
    ensures { result ≡ mixes setting }
{
    match setting {
        Setting::Code => false,
        Setting::Annotation => true,
    }
}

/// Whether it is `uintN` or `intN`.
pub fn is_integer(t: TextType) -> bool
    ensures { result ≡ is_integer t }
{
    match t {
        TextType::Uint(_) | TextType::Int(_) => true,
        _ => false,
    }
}

/// Whether it is `intN`.
pub fn is_signed(t: TextType) -> bool
    ensures { result ≡ is_signed t }
{
    match t {
        TextType::Int(_) => true,
        _ => false,
    }
}

/// Whether it is an enum.
pub fn is_enum(t: TextType) -> bool
    ensures { result ≡ is_enum t }
{
    match t {
        TextType::Enum(_) => true,
        _ => false,
    }
}

/// Whether it is `bool`.
pub fn is_bool(t: TextType) -> bool
    ensures { result ≡ is_bool t }
{
    match t {
        TextType::Bool => true,
        _ => false,
    }
}

/// Whether it is `address` or `address payable`.
pub fn is_address(t: TextType) -> bool
    ensures { result ≡ is_address t }
{
    match t {
        TextType::Address(_) => true,
        _ => false,
    }
}

/// Whether it is a contract or an interface.
pub fn is_contract(t: TextType) -> bool
    ensures { result ≡ is_contract t }
{
    match t {
        TextType::Contract(_) => true,
        _ => false,
    }
}

fn is_uint160(t: TextType) -> bool
    ensures { result ≡ is_uint160 t }
{
    match t {
        TextType::Uint(bits) => bits == 160,
        _ => false,
    }
}

/// Whether contract `base` is in the list of bases of contract `contract`. A contract without a list has no bases.
pub fn derives(bases: &[Items<u32>], contract: u32, base: u32) -> bool
    ensures { result ≡ derives bases.now contract base }
{
    match sqlite_items::at(bases, contract as usize) {
        None => false,
        Some(line) => line.as_slice().contains(&base),
    }
}

/// Whether a value of the first type is one of the second as it stands. For contracts `bases` has by number the bases of each, direct and indirect.
pub fn converts(bases: &[Items<u32>], from: TextType, to: TextType) -> bool
    ensures { result ≡ converts bases.now from to }
{
    match (from, to) {
        (TextType::Uint(bits), TextType::Uint(wanted)) => bits <= wanted,
        (TextType::Int(bits), TextType::Int(wanted)) => bits <= wanted,
        (TextType::Address(payable), TextType::Address(wanted)) => payable || !wanted,
        (TextType::Contract(contract), TextType::Contract(base)) => {
            contract == base || derives(bases, contract, base)
        }
        _ => from.is_same(to),
    }
}

/// Whether the text may turn a value of the first type into another of the second.
fn turns(setting: Setting, bases: &[Items<u32>], from: TextType, to: TextType) -> bool
    ensures { result ≡ turns setting bases.now from to }
{
    match to {
        TextType::Uint(bits) => {
            is_integer(from) || is_enum(from) || (is_address(from) && bits == 160)
        }
        TextType::Int(_) => is_integer(from) || is_enum(from),
        TextType::Enum(_) => is_integer(from),
        TextType::Address(payable) => {
            is_address(from)
                || is_contract(from)
                || (is_uint160(from) && !payable && !mixes(setting))
        }
        TextType::Contract(base) => turns_to_contract(bases, from, base),
        _ => false,
    }
}

fn turns_to_contract(bases: &[Items<u32>], from: TextType, to: u32) -> bool
    ensures { result ≡ turns_to_contract bases.now from to }
{
    match from {
        TextType::Address(_) => true,
        TextType::Contract(contract) => derives(bases, to, contract),
        _ => false,
    }
}

/// Whether a value of the first type may be converted to the second by the name of that type.
pub fn converts_by_name(
    setting: Setting,
    bases: &[Items<u32>],
    from: TextType,
    to: TextType,
) -> bool
    ensures { result ≡ converts_by_name setting bases.now from to }
{
    converts(bases, from, to) || turns(setting, bases, from, to)
}
