ghost use Rattle.std.specs.Prelude.{◌≡◌, ◌↔◌, [], IsTrue, map};
ghost use Rattle.sv_first_form.specs.FormParts.{at_end};
ghost use Rattle.sv_first_form.specs.FormReading.{Begins, BeginsKind, ReadsPart, exact, any_text};
ghost use Rattle.sv_first_form.specs.FormSymbols.{symbol, symbol_with};

use crate::form_error::FormError;
use crate::text::Text;
use std::marker::Model;
use sv_lex::{Tok, Token};

/// The tokens that are still to be read. A contract sees the list of their symbols.
#[derive(Drop)]
pub struct Cursor<'t, 'a> {
    rest: &'t [Token<'a>],
}

impl<'t, 'a> Model for Cursor<'t, 'a> {
    ghost use Rattle.std.specs.Prelude.{List, map};
    ghost use Rattle.sv_first_form.specs.FormSymbols.{Symbol, symbol};

    ghost Value = { List Symbol };

    ghost view = { λ c. map symbol c.rest.now };
}

impl<'t, 'a> Cursor<'t, 'a> {
    /// Before the first token.
    pub fn new(tokens: &'t [Token<'a>]) -> Cursor<'t, 'a>
        ensures { result ≡ map symbol tokens.now }
    {
        Cursor { rest: tokens }
    }

    /// Whether no token is left.
    pub fn is_at_end(&self) -> bool
        ensures { IsTrue result ↔ (self.now ≡ []) }
    {
        self.rest.is_empty()
    }

    /// Whether the next token is this one.
    pub fn sees(&self, kind: Tok, text: &[u8]) -> bool
        ensures { IsTrue result ↔ Begins (symbol_with kind text.now) self.now }
    {
        match self.rest.first() {
            Some(next) => is_token(next, kind, text),
            None => false,
        }
    }

    /// Whether the next token is of this kind.
    pub fn sees_kind(&self, kind: Tok) -> bool
        ensures { IsTrue result ↔ BeginsKind kind self.now }
    {
        match self.rest.first() {
            Some(next) => next.kind == kind,
            None => false,
        }
    }

    /// Takes the next token, which must be this one.
    pub fn expect(&mut self, kind: Tok, text: &[u8]) -> Result<(), FormError>
        ensures { ReadsPart (exact (symbol_with kind text.now)) self.old result self.new }
    {
        if !self.sees(kind, text) {
            return Err(FormError::Unbuilt);
        }
        self.rest = &self.rest[1..];
        Ok(())
    }

    /// Nothing is left, or it's an error.
    pub fn expect_end(&self) -> Result<(), FormError>
        ensures { ReadsPart at_end self.now result [] }
    {
        if self.is_at_end() {
            Ok(())
        } else {
            Err(FormError::Unbuilt)
        }
    }

    /// Takes the text of the next token, which must be of this kind.
    pub fn text(&mut self, kind: Tok) -> Result<Text<'a>, FormError>
        ensures { ReadsPart (any_text kind) self.old result self.new }
    {
        let Some(next) = self.rest.first() else {
            return Err(FormError::Unbuilt);
        };
        if next.kind != kind {
            return Err(FormError::Unbuilt);
        }
        let text = Text::new(next.text);
        self.rest = &self.rest[1..];
        Ok(text)
    }
}

/// Whether the token has this kind and text.
pub fn is_token(next: &Token<'_>, kind: Tok, text: &[u8]) -> bool
    ensures { IsTrue result ↔ (symbol next.now ≡ symbol_with kind text.now) }
{
    next.kind == kind && next.text == text
}
