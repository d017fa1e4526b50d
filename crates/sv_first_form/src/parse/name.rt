ghost use Rattle.std.specs.Prelude.{◌≡◌, ◌↔◌, ◌≤◌, ℕ, IsTrue, length, nat_eq};
ghost use Rattle.std.specs.Cmp.Lexicographic.{pointwise};
ghost use Rattle.std.specs.List.{AllPass, list_any};
ghost use Rattle.sv_first_form.specs.FirstForm.{IsName};
ghost use Rattle.sv_lex.specs.Bytes.{is_letter};

use crate::reserved::RESERVED;

/// Whether the text may name a contract, a variable or a function.
pub fn is_name(text: &[u8]) -> bool
    ensures { IsTrue result ↔ IsName text.now }
{
    if text.is_empty() || text.len() > 8 {
        return false;
    }
    if is_among(&RESERVED, text) {
        return false;
    }
    has_letters_alone(text)
}

fn has_letters_alone(text: &[u8]) -> bool
    ensures { IsTrue result ↔ AllPass is_letter text.now }
{
    text.iter().all(|b| matches!(*b, b'A'..=b'Z' | b'a'..=b'z'))
}

fn is_among(words: &[&[u8]], text: &[u8]) -> bool
    ensures { result ≡ list_any (λ word. pointwise nat_eq word.now text.now) words.now }
{
    words.iter().any(|word| *word == text)
}
