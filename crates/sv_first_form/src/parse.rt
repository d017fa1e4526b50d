//! The contract that a list of tokens stands for.

ghost use Rattle.std.specs.Prelude.{◌≡◌, ◌<◌, ◌^◌, [], length, map, Contains, IfOk, IfSome, IfNone, IsErrOf};
ghost use Rattle.sv_first_form.specs.FirstForm.{StandsFor};
ghost use Rattle.sv_first_form.specs.FormParts.{IsOpened, contract_part, contract_word};
ghost use Rattle.sv_first_form.specs.FormReading.{ReadsPart};
ghost use Rattle.sv_first_form.specs.FormSymbols.{symbol};
ghost use Rattle.sv_first_form.specs.declared.contract.Contract.{Contract};

mod act;
mod cursor;
mod declare;
mod function;
mod header;
mod name;
mod note;
mod number;
mod sum;

use crate::contract::Contract;
use crate::form_error::FormError;
use crate::parse::cursor::{Cursor, is_token};
use crate::parse::declare::{declare, declare_functions, declare_variables};
use crate::parse::function::body;
use crate::parse::header::{Header, read_header};
use crate::parse::note::notes;
use std::alloc::Global;
use sv_lex::{Tok, Token};
use sv_text::Names;

/// The contract that the tokens stand for.
pub fn parse<'a>(alloc: Global, tokens: &[Token<'a>]) -> Result<Contract<'a>, FormError>
    requires { length tokens.now < 2 ^ 31 }
    ensures meaning { IfOk result (λ c. StandsFor (map symbol tokens.now) c) }
    ensures only { IfOk result (λ c. (other : Contract) → StandsFor (map symbol tokens.now) other → other ≡ c) }
    ensures unbuilt { IsErrOf result FormError.Unbuilt → (c : Contract) → StandsFor (map symbol tokens.now) c → ⊥ }
{
    parse_whole(alloc, tokens)
}

/// The contract of the whole form.
fn parse_whole<'a>(alloc: Global, tokens: &[Token<'a>]) -> Result<Contract<'a>, FormError>
    requires { length tokens.now < 2 ^ 31 }
    ensures { ReadsPart contract_part (map symbol tokens.now) result [] }
{
    let Some((before, rest)) = split_at_contract(tokens) else {
        return Err(FormError::Unbuilt);
    };
    let mut cursor = Cursor::new(rest);
    let Header { name, variables } = read_header(alloc, &mut cursor)?;
    let mut names = Names::new(alloc);
    declare_variables(&mut names, variables.as_slice())?;
    let invariants = notes(alloc, before, &names)?;
    let functions = body(alloc, &mut cursor, &names)?;
    declare(&mut names, name.bytes())?;
    declare_functions(&mut names, functions.as_slice())?;
    Ok(Contract {
        name,
        variables,
        invariants,
        functions,
    })
}

/// The tokens before the first word `contract`, and the tokens from it on.
fn split_at_contract<'t, 'a>(tokens: &'t [Token<'a>]) -> Option<(&'t [Token<'a>], &'t [Token<'a>])>
    ensures cut { IfSome result
        (λ p. IsOpened (map symbol tokens.now) (map symbol p.0.now) (map symbol p.1.now)) }
    ensures none { IfNone result (Contains (map symbol tokens.now) contract_word → ⊥) }
{
    for (at, next) in tokens.iter().enumerate() {
        if is_token(next, Tok::Word, b"contract") {
            return Some(tokens.split_at(at));
        }
    }
    None
}
