//! The tokens of a text, as they come.

ghost use Rattle.std.specs.Prelude.{◌≡◌, ◌+◌, ◌^◌, ◌<◌, ◌≤◌, ◌++◌, ◌∷◌, [], List, IfOk, OnOk, OnErr, length, slice_range};
ghost use Rattle.sv_lex.specs.Collecting.{Collects, IsReady};
ghost use Rattle.sv_lex.specs.Tokens.{Lexeme, lexeme};

use crate::spot::Spot;
use crate::stop::Stop;
use crate::tok::Tok;
use crate::token::Token;
use std::alloc::Global;
use sv_text::{Place, Span};

/// The most tokens of a text.
pub const MOST_TOKENS: usize = 200_000;

/// The first 200,000 tokens of a text, and the place of the next.
#[derive(Drop)]
pub struct Collector<'a> {
    pub source: &'a [u8],
    pub tokens: Vec<Token<'a>>,
    pub spot: Spot,
    pub over: Option<Place>,
}

impl<'a> Collector<'a> {
    /// No tokens yet.
    pub fn new(alloc: Global, source: &'a [u8]) -> Collector<'a>
        requires { length source.now < 2 ^ 31 }
        ensures collects { Collects source.now [] result }
        ensures ready { IsReady source.now result 0 }
    {
        Collector {
            source,
            tokens: Vec::new(alloc),
            spot: Spot::start(),
            over: None,
        }
    }

    /// Adds the token from `from` up to, and without, `to`.
    pub fn push(&mut self, kind: Tok, from: usize, to: usize) -> Result<(), Stop>
        requires ready { IsReady self.old.source.now self.old from }
        requires ordered { from ≤ to }
        requires within { to ≤ length self.old.source.now }
        ensures collects { (list : List Lexeme) → Collects self.old.source.now list self.old
            → OnOk result (Collects self.old.source.now (list ++ lexeme kind (slice_range self.old.source.now from to) from ∷ []) self.new) }
        ensures ready { OnOk result (IsReady self.old.source.now self.new from) }
        ensures err { OnErr result (result ≡ Err Stop.NoMemory) }
    {
        if self.over.is_some() {
            return Ok(());
        }
        self.spot = self.spot.go_to(self.source, from);
        let place = self.spot.place;
        if self.tokens.len() == MOST_TOKENS {
            self.over = Some(place);
            return Ok(());
        }
        let token = Token {
            kind,
            text: &self.source[from..to],
            span: Span {
                from: from as u32,
                to: to as u32,
            },
            place,
        };
        self.tokens.push(token)?;
        Ok(())
    }
}
