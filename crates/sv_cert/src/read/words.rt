ghost use Rattle.std.specs.Prelude.{◌≡◌, ◌∷◌, ◌^◌, ◌↔◌, [], ℕ, List, Option, IsTrue, MatchOption};
ghost use Rattle.std.specs.Option.{option_copied};
ghost use Rattle.sv_cert.specs.LogReading.{numeral, index, integer, sign, each, ended};
ghost use Rattle.sv_cert.specs.LogSteps.{Takes, Gives, itself};

use crate::read::cut::cut;
use crate::read::numbers::{integer, numeral, sign};
use crate::read::stop::Stop;
use sqlite_items::Items;
use std::alloc::Global;
use std::marker::Model;

/// What one word writes.
pub trait FromWord: Drop {
    ghost reads: { List ℕ → Option Self };

    fn from_word(word: &[u8]) -> Option<Self>
        ensures { result ≡ reads word.now };
}

/// The words of a line that are still to be read. A contract sees them as a list.
#[derive(Drop)]
pub struct Words<'a> {
    rest: Option<&'a [u8]>,
}

impl<'a> Model for Words<'a> {
    ghost use Rattle.std.specs.Prelude.{List};
    ghost use Rattle.std.specs.Option.{option_copied};
    ghost use Rattle.sv_cert.specs.LogText.{Word};
    ghost use Rattle.sv_cert.specs.LogSteps.{words_left};

    ghost Value = { List Word };

    ghost view = { λ w. words_left (option_copied w.rest) };
}

impl<'a> Words<'a> {
    ghost use Rattle.sv_cert.specs.LogReading.{words_in};

    /// The words of a line, which is given without its newline.
    pub fn of(line: &'a [u8]) -> Words<'a>
        ensures { result ≡ words_in line.now }
    {
        Words { rest: Some(line) }
    }

    /// Whether all are read.
    pub fn is_empty(&self) -> bool
        ensures { IsTrue result ↔ (self.now ≡ []) }
    {
        self.rest.is_none()
    }

    /// The next word.
    pub fn next(&mut self) -> Option<&'a [u8]>
        ensures { MatchOption (option_copied result) ((self.old ≡ []) × (self.new ≡ []))
            (λ word. self.old ≡ word ∷ self.new) }
    {
        let Some(line) = self.rest else {
            return None;
        };
        let (word, rest) = cut(line, b' ');
        self.rest = rest;
        Some(word)
    }

    /// What the next word writes.
    pub fn take<T: FromWord>(&mut self) -> Result<T, Stop>
        ensures { Takes T.reads itself self.old result self.new }
    {
        let Some(word) = self.next() else {
            return Err(Stop::NoEntry);
        };
        match T::from_word(word) {
            Some(value) => Ok(value),
            None => Err(Stop::NoEntry),
        }
    }

    /// No word is left, or it's no entry.
    pub fn end(&self) -> Result<(), Stop>
        ensures { Gives itself result (ended self.now tt) }
    {
        if self.is_empty() {
            Ok(())
        } else {
            Err(Stop::NoEntry)
        }
    }
}

/// What all words that are left write.
pub fn take_all<T: FromWord>(alloc: Global, words: &mut Words<'_>) -> Result<Items<T>, Stop>
    ensures { Gives itself result (each T.reads words.old) }
{
    let mut values = Items::new(alloc);
    while !words.is_empty() {
        values.push(words.take()?)?;
    }
    Ok(values)
}

impl FromWord for u8 {
    ghost reads = { numeral (2 ^ 8) };

    fn from_word(word: &[u8]) -> Option<u8> {
        match numeral(word) {
            Some(n) => u8::try_from(n).ok(),
            None => None,
        }
    }
}

impl FromWord for usize {
    ghost reads = { index };

    fn from_word(word: &[u8]) -> Option<usize> {
        match numeral(word) {
            Some(n) => usize::try_from(n).ok(),
            None => None,
        }
    }
}

impl FromWord for u16 {
    ghost reads = { numeral (2 ^ 16) };

    fn from_word(word: &[u8]) -> Option<u16> {
        match numeral(word) {
            Some(n) => u16::try_from(n).ok(),
            None => None,
        }
    }
}

impl FromWord for u128 {
    ghost reads = { numeral (2 ^ 128) };

    fn from_word(word: &[u8]) -> Option<u128> {
        numeral(word)
    }
}

impl FromWord for i128 {
    ghost reads = { integer };

    fn from_word(word: &[u8]) -> Option<i128> {
        integer(word)
    }
}

/// The sign of a fact, or which way round an equation is taken.
impl FromWord for bool {
    ghost reads = { sign };

    fn from_word(word: &[u8]) -> Option<bool> {
        sign(word)
    }
}
