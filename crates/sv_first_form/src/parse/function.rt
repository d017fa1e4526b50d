//! The functions of a contract.
#![tactic(auto, using(crate::proofs::Rules::function_reading))]

ghost use Rattle.std.specs.Prelude.{◌≡◌, []};
ghost use Rattle.sv_first_form.specs.FormParts.{AreNames, function_part, functions_part, body_part};
ghost use Rattle.sv_first_form.specs.FormReading.{ReadsPart};

use crate::contract::Function;
use crate::form_error::FormError;
use crate::parse::act::acts;
use crate::parse::cursor::Cursor;
use sqlite_items::Items;
use std::alloc::Global;
use sv_lex::Tok;
use sv_text::Names;

/// The functions up to the end of the tokens. Their names are not looked at.
pub fn body<'a>(
    alloc: Global,
    cursor: &mut Cursor<'_, 'a>,
    names: &Names,
) -> Result<Items<Function<'a>>, FormError>
    requires { AreNames names.now }
    ensures { ReadsPart (body_part names.now) cursor.old result [] }
{
    let functions = functions(alloc, cursor, names)?;
    cursor.expect(Tok::Punct, b"}")?;
    cursor.expect_end()?;
    Ok(functions)
}

fn functions<'a>(
    alloc: Global,
    cursor: &mut Cursor<'_, 'a>,
    names: &Names,
) -> Result<Items<Function<'a>>, FormError>
    requires { AreNames names.now }
    ensures { ReadsPart (functions_part names.now) cursor.old result cursor.new }
{
    let mut functions = Items::new(alloc);
    'functions: while cursor.sees(Tok::Word, b"function") {
        let function = function(alloc, cursor, names)?;
        functions.push(function)?;
    }
    Ok(functions)
}

fn function<'a>(
    alloc: Global,
    cursor: &mut Cursor<'_, 'a>,
    names: &Names,
) -> Result<Function<'a>, FormError>
    requires { AreNames names.now }
    ensures { ReadsPart (function_part names.now) cursor.old result cursor.new }
{
    cursor.expect(Tok::Word, b"function")?;
    let name = cursor.text(Tok::Word)?;
    cursor.expect(Tok::Punct, b"(")?;
    cursor.expect(Tok::Punct, b")")?;
    cursor.expect(Tok::Word, b"public")?;
    cursor.expect(Tok::Punct, b"{")?;
    let acts = acts(alloc, cursor, names)?;
    cursor.expect(Tok::Punct, b"}")?;
    Ok(Function { name, acts })
}
