//! The invariants that the notes before a contract claim.
#![tactic(auto, using(crate::proofs::Rules::note_reading))]

ghost use Rattle.std.specs.Prelude.{◌≡◌, [], map};
ghost use Rattle.sv_first_form.specs.FormParts.{AreNames, note_part, notes_part};
ghost use Rattle.sv_first_form.specs.FormReading.{ReadsPart};
ghost use Rattle.sv_first_form.specs.FormSymbols.{symbol};

use crate::contract::Equation;
use crate::form_error::FormError;
use crate::parse::cursor::Cursor;
use crate::parse::sum::equation;
use sqlite_items::Items;
use std::alloc::Global;
use sv_lex::{Tok, Token};
use sv_text::Names;

/// The equations of the notes, which these tokens are.
pub fn notes(
    alloc: Global,
    tokens: &[Token<'_>],
    names: &Names,
) -> Result<Items<Equation>, FormError>
    requires { AreNames names.now }
    ensures { ReadsPart (notes_part names.now) (map symbol tokens.now) result [] }
{
    let mut cursor = Cursor::new(tokens);
    let mut notes = Items::new(alloc);
    'notes: while !cursor.is_at_end() {
        let note = note(alloc, &mut cursor, names)?;
        notes.push(note)?;
    }
    Ok(notes)
}

fn note(alloc: Global, cursor: &mut Cursor<'_, '_>, names: &Names) -> Result<Equation, FormError>
    requires { AreNames names.now }
    ensures { ReadsPart (note_part names.now) cursor.old result cursor.new }
{
    cursor.expect(Tok::Note, b"invariant")?;
    let equation = equation(alloc, cursor, names)?;
    cursor.expect(Tok::End, b"")?;
    Ok(equation)
}
