//! Tokens that are nested too deeply, or too far behind the beginning of their statement.

ghost use Rattle.std.specs.Prelude.{◌≡◌};
ghost use Rattle.sv_lex.specs.Lexing.{GivesFirst, shown};
ghost use Rattle.sv_lex.specs.Limits.{IsDeep, restarts};
ghost use Rattle.sv_lex.specs.NestingFound.{IsBracket};

use crate::tok::Tok;
use crate::token::Token;
use crate::tokens::Tokens;
use sv_text::Place;

/// The most brackets that are open at once.
const MOST_BRACKETS: usize = 64;

/// The most tokens since the last `;`, `{`, `}` or End.
const MOST_IN_A_ROW: usize = 1000;

/// What a token does to the brackets that are open.
#[derive(Clone, Copy)]
enum Bracket {
    Opens,
    Closes,
    None,
}

impl Bracket {
    fn of(token: &Token<'_>) -> Bracket
        ensures { IsBracket (shown token.now) result }
    {
        match (token.kind, token.text) {
            (Tok::Punct, b"(" | b"[" | b"{") => Bracket::Opens,
            (Tok::Punct, b")" | b"]" | b"}") => Bracket::Closes,
            _ => Bracket::None,
        }
    }
}

fn restarts(token: &Token<'_>) -> bool
    ensures { result ≡ restarts (shown token.now) }
{
    match token.kind {
        Tok::End => true,
        Tok::Punct => matches!(token.text, b";" | b"{" | b"}"),
        _ => false,
    }
}

/// The place of the first token at which more than 64 brackets are open, or which is the 1,001st since the last `;`, `{`,
/// `}` or End.
pub fn deep(tokens: &Tokens<'_>) -> Option<Place>
    ensures { GivesFirst IsDeep tokens.now result }
{
    let mut open = 0usize;
    let mut in_a_row = 0usize;
    for token in tokens.as_slice() {
        open = match Bracket::of(token) {
            Bracket::Opens => open + 1,
            Bracket::Closes => open.saturating_sub(1),
            Bracket::None => open,
        };
        if open > MOST_BRACKETS || in_a_row == MOST_IN_A_ROW {
            return Some(token.place);
        }
        in_a_row = if restarts(token) { 0 } else { in_a_row + 1 };
    }
    None
}
