//! Structs, enums, events and errors.

ghost use Rattle.std.specs.Prelude.{◌≡◌, refl};
ghost use Rattle.sv_parse_unit.specs.UnitWords.{elem, side, enum_tree, er_par_tree, error_tree, ev_par_tree, event_tree, field_tree, struct_tree};
ghost use Rattle.sv_ast.specs.Syntax as g;

use crate::reader::{Several, Units};
use sv_ast::{Enum, ErPar, Error, EvPar, Event, Field, Struct, TypeExpr};
use sv_parse_expr::sees_type;
use sv_read::words::{
    ANONYMOUS, ENUM, ERROR, EVENT, INDEXED, L_BRACE, L_PAREN, R_BRACE, R_PAREN, SEMICOLON, STRUCT,
};
use sv_read::{Begins, Class, Commas, Cursor, Listed, Parse, ParseError, Word, placed};
use sv_text::Name;

/// A struct with one field or more, as `struct S { uint256 a; }`.
impl Parse<Units> for Struct {
    ghost part = { side g.struct };

    ghost tree = { struct_tree };

    fn parse(reader: &Units, cursor: &mut Cursor<'_>) -> Result<Struct, ParseError> {
        type Fields = (Several<Field>, Word<R_BRACE>);
        type Parts = (Word<STRUCT>, Name, Word<L_BRACE>, Fields);
        let ((_, name, _, fields), span, place) = placed::<_, Parts>(reader, cursor)?;
        Ok(Struct {
            name,
            fields: fields.0.0,
            span,
            place,
        })
    }
}

impl Begins<Units> for Struct {
    ghost filled = { refl };

    fn begins(cursor: &Cursor<'_>) -> bool {
        cursor.sees(Class::Struct)
    }
}

/// A field of a struct, as `uint256 a;`.
impl Parse<Units> for Field {
    ghost part = { side g.field };

    ghost tree = { field_tree };

    fn parse(reader: &Units, cursor: &mut Cursor<'_>) -> Result<Field, ParseError> {
        type Parts = (TypeExpr, Name, Word<SEMICOLON>);
        let ((of_type, name, _), span, place) = placed::<_, Parts>(reader, cursor)?;
        Ok(Field {
            of_type,
            name,
            span,
            place,
        })
    }
}

impl Begins<Units> for Field {
    ghost filled = { refl };

    fn begins(cursor: &Cursor<'_>) -> bool {
        sees_type(cursor)
    }
}

/// An enum with one member or more, as `enum E { A, B }`.
impl Parse<Units> for Enum {
    ghost part = { side g.enum };

    ghost tree = { enum_tree };

    fn parse(reader: &Units, cursor: &mut Cursor<'_>) -> Result<Enum, ParseError> {
        type Parts = (Word<ENUM>, Name, Word<L_BRACE>, Listed<Name>, Word<R_BRACE>);
        let ((_, name, _, members, _), span, place) = placed::<_, Parts>(reader, cursor)?;
        Ok(Enum {
            name,
            members: members.0,
            span,
            place,
        })
    }
}

impl Begins<Units> for Enum {
    ghost filled = { refl };

    fn begins(cursor: &Cursor<'_>) -> bool {
        cursor.sees(Class::Enum)
    }
}

/// An event, as `event E(uint256 indexed a) anonymous;`.
impl Parse<Units> for Event {
    ghost part = { side g.event };

    ghost tree = { event_tree };

    fn parse(reader: &Units, cursor: &mut Cursor<'_>) -> Result<Event, ParseError> {
        type End = (Word<R_PAREN>, Option<Word<ANONYMOUS>>, Word<SEMICOLON>);
        type Parts = (Word<EVENT>, Name, Word<L_PAREN>, Commas<EvPar>, End);
        let ((_, name, _, params, end), span, place) = placed::<_, Parts>(reader, cursor)?;
        Ok(Event {
            name,
            params: params.0,
            is_anonymous: end.1.is_some(),
            span,
            place,
        })
    }
}

impl Begins<Units> for Event {
    ghost filled = { refl };

    fn begins(cursor: &Cursor<'_>) -> bool {
        cursor.sees(Class::Event)
    }
}

/// A parameter of an event, as `uint256 indexed a`.
impl Parse<Units> for EvPar {
    ghost part = { side g.ev_par };

    ghost tree = { ev_par_tree };

    fn parse(reader: &Units, cursor: &mut Cursor<'_>) -> Result<EvPar, ParseError> {
        type Parts = (TypeExpr, Option<Word<INDEXED>>, Option<Name>);
        let ((of_type, indexed, name), span, place) = placed::<_, Parts>(reader, cursor)?;
        Ok(EvPar {
            of_type,
            is_indexed: indexed.is_some(),
            name,
            span,
            place,
        })
    }
}

impl Begins<Units> for EvPar {
    ghost filled = { refl };

    fn begins(cursor: &Cursor<'_>) -> bool {
        sees_type(cursor)
    }
}

/// An error, as `error E(uint256 a);`.
impl Parse<Units> for Error {
    ghost part = { side g.error };

    ghost tree = { error_tree };

    fn parse(reader: &Units, cursor: &mut Cursor<'_>) -> Result<Error, ParseError> {
        type End = (Word<R_PAREN>, Word<SEMICOLON>);
        type Parts = (Word<ERROR>, Name, Word<L_PAREN>, Commas<ErPar>, End);
        let ((_, name, _, params, _), span, place) = placed::<_, Parts>(reader, cursor)?;
        Ok(Error {
            name,
            params: params.0,
            span,
            place,
        })
    }
}

/// A parameter of an error, as `uint256 a`.
impl Parse<Units> for ErPar {
    ghost part = { side g.er_par };

    ghost tree = { er_par_tree };

    fn parse(reader: &Units, cursor: &mut Cursor<'_>) -> Result<ErPar, ParseError> {
        let ((of_type, name), span, place) = placed(reader, cursor)?;
        Ok(ErPar {
            of_type,
            name,
            span,
            place,
        })
    }
}

impl Begins<Units> for ErPar {
    ghost filled = { refl };

    fn begins(cursor: &Cursor<'_>) -> bool {
        sees_type(cursor)
    }
}
