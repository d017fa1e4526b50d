//! Pieces of types.
#![tactic(auto)]

ghost use Rattle.std.specs.Prelude.{◌≡◌, IfOk};
ghost use Rattle.sv_type_piece.specs.DeclaredTypes.{piece_type, text_of};

use crate::declared::{member_type, named_type};
use crate::elementary::elementary_type;
use sqlite_items::Items;
use std::alloc::Global;
use sv_decl::{DeclaredText, TypePiece};
use sv_text::{Name, Names, NoMemory};
use sv_text_type::TextType;

/// The text of a name, or none where the list doesn't have the name.
fn text_of(names: &Names, n: Name) -> &[u8]
    ensures { result.now ≡ text_of names.now n }
{
    if (n.position() as usize) < names.len() {
        names.text(n)
    } else {
        &[]
    }
}

/// The type that a piece stands for by itself, where contract `c` writes it, or where it stands outside of all contracts. `sights` has for each
/// contract the contracts in which it looks for names, as those of its line.
pub fn piece_type(
    alloc: Global,
    names: &Names,
    text: &DeclaredText,
    sights: &[Items<u32>],
    c: Option<u32>,
    p: TypePiece,
) -> Result<Option<TextType>, NoMemory>
    ensures { IfOk result (λ r. r ≡ piece_type names.now text.now sights.now c p) }
{
    match p {
        TypePiece::Elementary(n) => Ok(elementary_type(text_of(names, n))),
        TypePiece::Address(is_payable) => Ok(Some(TextType::Address(is_payable))),
        TypePiece::String => Ok(Some(TextType::Text)),
        TypePiece::Named(n) => named_type(alloc, text, sights, c, n.position()),
        TypePiece::Member(n, m) => {
            member_type(alloc, text, sights, c, n.position(), m.position())
        }
        TypePiece::Mapping => Ok(None),
        TypePiece::Dynamic => Ok(None),
        TypePiece::Fixed(_) => Ok(None),
    }
}
