//! What stands before the functions of a contract.
#![tactic(auto, using(crate::proofs::Rules::header_reading))]

ghost use Rattle.std.specs.Prelude.{◌≡◌};
ghost use Rattle.sv_first_form.specs.FormParts.{declaration_part, declarations_part, header_part};
ghost use Rattle.sv_first_form.specs.FormReading.{ReadsPart};

use crate::form_error::FormError;
use crate::parse::cursor::Cursor;
use crate::text::Text;
use sqlite_items::Items;
use std::alloc::Global;
use sv_lex::Tok;

/// The names of a contract and of its variables.
#[derive(Drop)]
pub struct Header<'a> {
    pub name: Text<'a>,
    pub variables: Items<Text<'a>>,
}

/// The header. Its names are not looked at.
pub fn read_header<'a>(alloc: Global, cursor: &mut Cursor<'_, 'a>) -> Result<Header<'a>, FormError>
    ensures { ReadsPart header_part cursor.old result cursor.new }
{
    cursor.expect(Tok::Word, b"contract")?;
    let name = cursor.text(Tok::Word)?;
    cursor.expect(Tok::Punct, b"{")?;
    let variables = declarations(alloc, cursor)?;
    Ok(Header { name, variables })
}

fn declarations<'a>(
    alloc: Global,
    cursor: &mut Cursor<'_, 'a>,
) -> Result<Items<Text<'a>>, FormError>
    ensures { ReadsPart declarations_part cursor.old result cursor.new }
{
    let mut variables = Items::new(alloc);
    'variables: while cursor.sees(Tok::Word, b"uint256") {
        let variable = declaration(cursor)?;
        variables.push(variable)?;
    }
    Ok(variables)
}

fn declaration<'a>(cursor: &mut Cursor<'_, 'a>) -> Result<Text<'a>, FormError>
    ensures { ReadsPart declaration_part cursor.old result cursor.new }
{
    cursor.expect(Tok::Word, b"uint256")?;
    let name = cursor.text(Tok::Word)?;
    cursor.expect(Tok::Punct, b";")?;
    Ok(name)
}
