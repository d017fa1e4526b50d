//! What stands in a text.

ghost use Rattle.std.specs.Prelude.{◌≡◌, [], refl};
ghost use Rattle.sv_parse_unit.specs.UnitWords.{both, elem, side, last, kept, quoted, ◌⊙◌, ◌∣◌, error_tree, file_const_tree, unit_item_tree, unit_tree, either_tree};
ghost use Rattle.sv_ast.specs.declared.class.Class.TheVariants as k;
ghost use Rattle.sv_ast.specs.Syntax as g;

use crate::contract::Nowhere;
use crate::reader::Units;
use sv_ast::{Contract, Enum, Error, Event, Expr, FileConst, Struct, TypeExpr, Unit, UnitItem};
use sv_parse_expr::sees_type;
use sv_read::Either::{self, First, Second};
use sv_read::words::{CONSTANT, EQUALS, PRAGMA, SEMICOLON};
use sv_read::{Begins, Both, Class, Cursor, Kept, Parse, ParseError, Word, placed};
use sv_text::Name;

/// As many contracts and other items as there are.
impl Parse<Units> for Unit {
    ghost part = { side g.unit };

    ghost tree = { unit_tree };

    fn parse(reader: &Units, cursor: &mut Cursor<'_>) -> Result<Unit, ParseError> {
        let (items, span, place) = placed(reader, cursor)?;
        Ok(Unit { items, span, place })
    }
}

/// What an item may begin with that is no constant.
#[rattlefmt::skip]
const KEYWORDS: [Class; 9] = [
    Class::Pragma, Class::Note, Class::Abstract, Class::Contract, Class::Interface,
    Class::Struct, Class::Enum, Class::Event, Class::Error,
];

impl Begins<Units> for UnitItem {
    ghost filled = { refl };

    fn begins(cursor: &Cursor<'_>) -> bool {
        sees_type(cursor) || cursor.sees_any(&KEYWORDS)
    }
}

impl Parse<Units> for UnitItem {
    ghost part = { kept k.Pragma ⊙ quoted k.Semicolon ∣ side g.contract ∣ side g.struct ∣ side g.enum ∣ side g.event ∣ both [] (side g.error) (side g.file_const) };

    ghost tree = { unit_item_tree };

    fn parse(reader: &Units, cursor: &mut Cursor<'_>) -> Result<UnitItem, ParseError> {
        type Pragma = (Kept<PRAGMA>, Word<SEMICOLON>);
        type Told = Either<Enum, Either<Event, Both<Nowhere, Error, FileConst>>>;
        type Forms = Either<Pragma, Either<Contract, Either<Struct, Told>>>;
        match <Forms as Parse<Units>>::parse(reader, cursor)? {
            First((text, _)) => Ok(UnitItem::Pragma(text.0)),
            Second(First(contract)) => Ok(UnitItem::Contract(contract)),
            Second(Second(First(of))) => Ok(UnitItem::Struct(of)),
            Second(Second(Second(First(of)))) => Ok(UnitItem::Enum(of)),
            Second(Second(Second(Second(First(event))))) => Ok(UnitItem::Event(event)),
            Second(Second(Second(Second(Second(other))))) => Ok(item_of(other.way)),
        }
    }
}

/// An error or a constant.
fn item_of(read: Either<Error, FileConst>) -> UnitItem
    ensures { unit_item_tree result ≡ last 5 (either_tree error_tree file_const_tree read) }
{
    match read {
        First(error) => UnitItem::Error(error),
        Second(constant) => UnitItem::FileConst(constant),
    }
}

/// A constant outside all contracts, as `uint256 constant a = 1;`.
impl Parse<Units> for FileConst {
    ghost part = { side g.file_const };

    ghost tree = { file_const_tree };

    fn parse(reader: &Units, cursor: &mut Cursor<'_>) -> Result<FileConst, ParseError> {
        type Value = (Word<EQUALS>, Expr, Word<SEMICOLON>);
        type Parts = (TypeExpr, Word<CONSTANT>, Name, Value);
        let ((of_type, _, name, value), span, place) = placed::<_, Parts>(reader, cursor)?;
        Ok(FileConst {
            of_type,
            name,
            value: value.1,
            span,
            place,
        })
    }
}
