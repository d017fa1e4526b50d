//! Strings.

ghost use Rattle.std.specs.Prelude.{◌≡◌};
ghost use Rattle.sv_lex.specs.Bytes.{is_quote, DoesBegin};
ghost use Rattle.sv_lex.specs.Strings.{EndsString, step};

use crate::bytes::Class;

/// What may come next inside a string.
#[derive(Clone, Copy)]
pub enum State {
    /// A byte, an escape, or the quote.
    Plain,
    /// The byte behind a backslash.
    Escape,
    /// So many hexadecimal digits.
    Digits(u8),
}

/// Where a string ends.
#[derive(Clone, Copy)]
pub enum StringEnd {
    /// It is whole, and this is its length.
    Whole(usize),
    /// It can't go on behind so many bytes.
    Broken(usize),
}

impl State {
    fn step(self, quote: u8, byte: u8) -> Option<State>
        ensures { result ≡ step quote self byte }
    {
        match (self, byte) {
            (State::Plain, b'\\') => Some(State::Escape),
            (State::Plain, b' '..=b'~') if byte != quote => Some(State::Plain),
            (State::Escape, b'n' | b'r' | b't' | b'\\' | b'\'' | b'"') => Some(State::Plain),
            (State::Escape, b'x') => Some(State::Digits(2)),
            (State::Escape, b'u') => Some(State::Digits(4)),
            (State::Digits(left), _) if Class::HexDigit.has(byte) => {
                if left > 1 {
                    Some(State::Digits(left - 1))
                } else {
                    Some(State::Plain)
                }
            }
            _ => None,
        }
    }
}

/// Where the string that the text begins ends.
pub fn string_end(text: &[u8]) -> StringEnd
    requires { DoesBegin is_quote text.now }
    ensures { EndsString text.now result }
{
    let quote = text[0];
    let mut state = State::Plain;
    for (i, byte) in text[1..].iter().enumerate() {
        if matches!(state, State::Plain) && *byte == quote {
            return StringEnd::Whole(i + 2);
        }
        match state.step(quote, *byte) {
            Some(next) => state = next,
            None => return StringEnd::Broken(i + 1),
        }
    }
    StringEnd::Broken(text.len())
}
