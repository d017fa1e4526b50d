//! Elementary types by their names.
#![tactic(auto)]

ghost use Rattle.std.specs.Prelude.{◌≡◌, map};
ghost use Rattle.sv_type_piece.specs.ElementaryTypes.{elementary_rows, elementary_type, found_in};
ghost use Rattle.sv_type_piece.specs.ElementaryTables.{spelled_type};

use sv_text_type::TextType;

#[rattlefmt::skip]
const ELEMENTARY: [(&[u8], TextType); 67] = [
    (b"bool", TextType::Bool), (b"uint", TextType::Uint(256)), (b"int", TextType::Int(256)),
    (b"uint8", TextType::Uint(8)), (b"uint16", TextType::Uint(16)), (b"uint24", TextType::Uint(24)),
    (b"uint32", TextType::Uint(32)), (b"uint40", TextType::Uint(40)),
    (b"uint48", TextType::Uint(48)), (b"uint56", TextType::Uint(56)),
    (b"uint64", TextType::Uint(64)), (b"uint72", TextType::Uint(72)),
    (b"uint80", TextType::Uint(80)), (b"uint88", TextType::Uint(88)),
    (b"uint96", TextType::Uint(96)), (b"uint104", TextType::Uint(104)),
    (b"uint112", TextType::Uint(112)), (b"uint120", TextType::Uint(120)),
    (b"uint128", TextType::Uint(128)), (b"uint136", TextType::Uint(136)),
    (b"uint144", TextType::Uint(144)), (b"uint152", TextType::Uint(152)),
    (b"uint160", TextType::Uint(160)), (b"uint168", TextType::Uint(168)),
    (b"uint176", TextType::Uint(176)), (b"uint184", TextType::Uint(184)),
    (b"uint192", TextType::Uint(192)), (b"uint200", TextType::Uint(200)),
    (b"uint208", TextType::Uint(208)), (b"uint216", TextType::Uint(216)),
    (b"uint224", TextType::Uint(224)), (b"uint232", TextType::Uint(232)),
    (b"uint240", TextType::Uint(240)), (b"uint248", TextType::Uint(248)),
    (b"uint256", TextType::Uint(256)), (b"int8", TextType::Int(8)), (b"int16", TextType::Int(16)),
    (b"int24", TextType::Int(24)), (b"int32", TextType::Int(32)), (b"int40", TextType::Int(40)),
    (b"int48", TextType::Int(48)), (b"int56", TextType::Int(56)), (b"int64", TextType::Int(64)),
    (b"int72", TextType::Int(72)), (b"int80", TextType::Int(80)), (b"int88", TextType::Int(88)),
    (b"int96", TextType::Int(96)), (b"int104", TextType::Int(104)), (b"int112", TextType::Int(112)),
    (b"int120", TextType::Int(120)), (b"int128", TextType::Int(128)),
    (b"int136", TextType::Int(136)), (b"int144", TextType::Int(144)),
    (b"int152", TextType::Int(152)), (b"int160", TextType::Int(160)),
    (b"int168", TextType::Int(168)), (b"int176", TextType::Int(176)),
    (b"int184", TextType::Int(184)), (b"int192", TextType::Int(192)),
    (b"int200", TextType::Int(200)), (b"int208", TextType::Int(208)),
    (b"int216", TextType::Int(216)), (b"int224", TextType::Int(224)),
    (b"int232", TextType::Int(232)), (b"int240", TextType::Int(240)),
    (b"int248", TextType::Int(248)), (b"int256", TextType::Int(256)),
];

/// The rows are those of the definition.
fn elementary_rows() -> &'static [(&'static [u8], TextType)]
    ensures { map spelled_type result.now ≡ elementary_rows }
{
    &ELEMENTARY
}

/// The type of a name in a table.
fn found_in(table: &[(&[u8], TextType)], text: &[u8]) -> Option<TextType>
    ensures { result ≡ found_in text.now (map spelled_type table.now) }
{
    for (spelled, stands_for) in table {
        if text == *spelled {
            return Some(*stands_for);
        }
    }
    None
}

/// The elementary type of a name.
pub(crate) fn elementary_type(text: &[u8]) -> Option<TextType>
    ensures { result ≡ elementary_type text.now }
{
    found_in(elementary_rows(), text)
}
