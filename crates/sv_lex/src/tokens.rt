//! The list of the tokens of a text.

ghost use Rattle.std.specs.Prelude.{◌≡◌, ◌↔◌, ◌<◌, ◌≤◌, [], length, map, slice_get, Some, All, IsTrue};
ghost use Rattle.sv_lex.specs.Lexing.{shown, IsOf, place_at};
ghost use Rattle.sv_lex.specs.Listing.{IsListing};
ghost use Rattle.sv_lex.specs.Tokens.{Tokens as HasTokens};

use crate::token::Token;
use std::marker::Model;
use sv_text::{Place, place_of};

/// The tokens of a text, at most 200,000. A contract sees the text and the list of its lexemes.
#[derive(Drop)]
pub struct Tokens<'a> {
    source: &'a [u8],
    items: Vec<Token<'a>>,
}

impl<'a> Model for Tokens<'a> {
    ghost use Rattle.std.specs.Prelude.{map};
    ghost use Rattle.sv_lex.specs.Lexing.{Scanned, shown};
    ghost use Rattle.sv_lex.specs.Listing.{IsListing};

    ghost Value = { Scanned };

    ghost view = { λ t. record { source = t.source.now; list = map shown t.items.items } };

    ghost invariant = { λ t. IsListing t.source.now t.items.items };
}

impl<'a> Tokens<'a> {
    /// The list of these tokens of the text.
    pub(crate) fn of(source: &'a [u8], items: Vec<Token<'a>>) -> Tokens<'a>
        requires { IsListing source.now items.items }
        ensures { result ≡ record { source = source.now; list = map shown items.entry.items } }
    {
        Tokens { source, items }
    }

    /// How many tokens there are.
    pub fn len(&self) -> usize
        ensures len { result ≡ length self.now.list }
        ensures few { result ≤ 200000 }
    {
        self.items.len()
    }

    /// Whether there is no token.
    pub fn is_empty(&self) -> bool
        ensures { IsTrue result ↔ (self.now.list ≡ []) }
    {
        self.items.is_empty()
    }

    /// The token at a position.
    pub fn get(&self, k: usize) -> &Token<'a>
        requires { k < length self.now.list }
        ensures shown { slice_get self.now.list k ≡ Some (shown result.now) }
        ensures place { IsOf self.now.source result.now }
    {
        &self.items[k]
    }

    /// The tokens in order.
    pub fn as_slice(&self) -> &[Token<'a>]
        ensures shown { map shown result.now ≡ self.now.list }
        ensures places { All (IsOf self.now.source) result.now }
        ensures few { length result.now ≤ 200000 }
        ensures tokens { HasTokens self.now.source self.now.list }
    {
        self.items.as_slice()
    }

    /// The place of the end of the text.
    pub fn end(&self) -> Place
        ensures { result ≡ place_at self.now.source (length self.now.source) }
    {
        place_of(self.source, self.source.len() as u32)
    }
}
