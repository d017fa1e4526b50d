ghost use Rattle.std.specs.Prelude.{◌≡◌, IfOk, MatchResult};
ghost use Rattle.sv_cli.specs.Due.{IsDue, Means};
ghost use Rattle.sv_report.specs.Report.{Reports};
ghost use Rattle.sv_cli.specs.TextTrees.{HasTree};
ghost use Rattle.sv_cli.specs.Unread.{GivesNoTree, GivesRefusal, IsUnread};
ghost use Rattle.sv_first_form.specs.FirstForm.{IsContract};
ghost use Rattle.sv_lex.specs.Limits.{HasNo, IsDeep};

use std::alloc::Global;
use sv_first_form::parse::parse;
use sv_first_form::{Contract, FormError};
use sv_first_judge::judge::judge;
use sv_lex::{LexFault, Tokens, deep, lex, out_word};
use sv_parse_expr::ParseFault;
use sv_parse_unit::parse_unit;
use sv_report::{Ended, Refusal, all_verified, error_line, report};
use sv_text::{Names, NoMemory};
use thiserror::Error;

/// Why a text isn't read as a contract.
#[derive(Debug, Drop, Error)]
enum Unread {
    /// It is refused.
    #[error("the text is refused")]
    Refused(Refusal),
    /// Memory ran out.
    #[error("out of memory")]
    NoMemory,
}

impl From<LexFault> for Unread {
    ghost use Rattle.std.specs.Prelude.{◌≡◌};
    ghost use Rattle.sv_cli.specs.Unread.{from_lex};

    ghost from_gives = { λ fault e. e ≡ from_lex fault };

    fn from(fault: LexFault) -> Unread {
        match fault {
            LexFault::Long => Unread::Refused(Refusal::Long),
            LexFault::Char(place) => Unread::Refused(Refusal::Char(place)),
            LexFault::Unclosed(place) => Unread::Refused(Refusal::Unclosed(place)),
            LexFault::Many(place) => Unread::Refused(Refusal::Many(place)),
            LexFault::NoMemory => Unread::NoMemory,
        }
    }
}

impl From<FormError> for Unread {
    ghost use Rattle.std.specs.Prelude.{◌≡◌};
    ghost use Rattle.sv_cli.specs.Unread.{from_form};

    ghost from_gives = { λ error e. e ≡ from_form error };

    fn from(error: FormError) -> Unread {
        match error {
            FormError::Unbuilt => Unread::Refused(Refusal::Unbuilt),
            FormError::NoMemory => Unread::NoMemory,
        }
    }
}

/// Why a text with these tokens is refused, whatever it stands for.
fn refusal_of(tokens: &Tokens<'_>) -> Option<Refusal>
    ensures { GivesRefusal tokens.now result }
{
    if let Some(place) = out_word(tokens) {
        return Some(Refusal::Out(place));
    }
    deep(tokens).map(Refusal::Deep)
}

/// Lets a value go.
fn let_go<X: Drop>(_x: X) {}

/// Whether tokens have a tree.
fn check_tree(alloc: Global, tokens: &Tokens<'_>) -> Result<(), Unread>
    requires { HasNo IsDeep tokens.now.list }
    ensures { MatchResult result
        (λ _. HasTree tokens.now.source tokens.now.list) (GivesNoTree tokens.now) }
{
    let mut names = Names::new(alloc);
    match parse_unit(alloc, tokens, &mut names) {
        Ok(unit) => {
            let_go(unit);
            Ok(())
        }
        Err(ParseFault::Syntax(place)) => Err(Unread::Refused(Refusal::Syntax(place))),
        Err(ParseFault::NoMemory) => Err(Unread::NoMemory),
    }
}

/// The contract that a text stands for.
fn read_contract<'a>(alloc: Global, text: &'a [u8]) -> Result<Contract<'a>, Unread>
    ensures { MatchResult result (Means text.now) (IsUnread text.now) }
{
    let tokens = lex(alloc, text)?;
    if let Some(refusal) = refusal_of(&tokens) {
        return Err(Unread::Refused(refusal));
    }
    check_tree(alloc, &tokens)?;
    let contract = parse(alloc, tokens.as_slice())?;
    Ok(contract)
}

/// The report of a contract, and how the program ends where it is written.
fn judged(alloc: Global, contract: &Contract<'_>) -> Result<(Vec<u8>, Ended), NoMemory>
    requires { IsContract contract.now }
    ensures { IfOk result (λ due. Reports contract.now due.0.items due.1) }
{
    let verdicts = judge(alloc, contract)?;
    let text = report(alloc, contract, &verdicts)?;
    let ended = if all_verified(&verdicts) {
        Ended::Holds
    } else {
        Ended::Unheld
    };
    Ok((text, ended))
}

/// What is due for a text, and how the program ends where it is written.
pub fn due(alloc: Global, text: &[u8]) -> Result<(Vec<u8>, Ended), NoMemory>
    ensures { IfOk result (λ due. IsDue text.now due.0.items due.1) }
{
    match read_contract(alloc, text) {
        Ok(contract) => judged(alloc, &contract),
        Err(Unread::Refused(refusal)) => Ok((error_line(alloc, refusal)?, Ended::Refused)),
        Err(Unread::NoMemory) => Err(NoMemory),
    }
}
