//! The statements of a function.
#![tactic(auto, using(crate::proofs::Rules::act_reading))]

ghost use Rattle.std.specs.Prelude.{◌≡◌};
ghost use Rattle.sv_first_form.specs.FormParts.{AreNames, assignment_part, requirement_part, act_part, acts_part};
ghost use Rattle.sv_first_form.specs.FormReading.{ReadsPart};

use crate::contract::Act;
use crate::form_error::FormError;
use crate::parse::cursor::Cursor;
use crate::parse::sum::{equation, value, variable};
use sqlite_items::Items;
use std::alloc::Global;
use sv_lex::Tok;
use sv_text::Names;

/// The statements up to the closing brace, of which a function has at most 16.
pub fn acts(
    alloc: Global,
    cursor: &mut Cursor<'_, '_>,
    names: &Names,
) -> Result<Items<Act>, FormError>
    requires { AreNames names.now }
    ensures { ReadsPart (acts_part names.now) cursor.old result cursor.new }
{
    let mut acts = Items::new(alloc);
    'acts: while !cursor.sees(Tok::Punct, b"}") {
        let act = act(alloc, cursor, names)?;
        acts.push(act)?;
    }
    if acts.len() > 16 {
        return Err(FormError::Unbuilt);
    }
    Ok(acts)
}

fn act(alloc: Global, cursor: &mut Cursor<'_, '_>, names: &Names) -> Result<Act, FormError>
    requires { AreNames names.now }
    ensures { ReadsPart (act_part names.now) cursor.old result cursor.new }
{
    if cursor.sees(Tok::Word, b"require") {
        requirement(alloc, cursor, names)
    } else {
        assignment(alloc, cursor, names)
    }
}

fn assignment(alloc: Global, cursor: &mut Cursor<'_, '_>, names: &Names) -> Result<Act, FormError>
    requires { AreNames names.now }
    ensures { ReadsPart (assignment_part names.now) cursor.old result cursor.new }
{
    let target = variable(cursor, names)?;
    cursor.expect(Tok::Punct, b"=")?;
    let value = value(alloc, cursor, names)?;
    cursor.expect(Tok::Punct, b";")?;
    Ok(Act::Assign(target, value))
}

fn requirement(alloc: Global, cursor: &mut Cursor<'_, '_>, names: &Names) -> Result<Act, FormError>
    requires { AreNames names.now }
    ensures { ReadsPart (requirement_part names.now) cursor.old result cursor.new }
{
    cursor.expect(Tok::Word, b"require")?;
    cursor.expect(Tok::Punct, b"(")?;
    let equation = equation(alloc, cursor, names)?;
    cursor.expect(Tok::Punct, b")")?;
    cursor.expect(Tok::Punct, b";")?;
    Ok(Act::Require(equation))
}
