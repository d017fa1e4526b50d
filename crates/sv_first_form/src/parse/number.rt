ghost use Rattle.std.specs.Prelude.{◌≡◌, ◌≢◌, ◌↔◌, ◌<◌, ◌≤◌, ◌^◌, ℕ, IsTrue, IfSome, IfNone, length};
ghost use Rattle.std.specs.Fmt.{decimal};
ghost use Rattle.sv_first_form.specs.Numeral.{HasDigitsAlone, IsNumeral};

/// The number that the text writes in at most 18 digits.
pub fn number_of(text: &[u8]) -> Option<u64>
    ensures written { IfSome result (λ n. (text.now ≡ decimal n) × (n < 10 ^ 18)) }
    ensures none { IfNone result ((n : ℕ) → n < 10 ^ 18 → text.now ≢ decimal n) }
{
    if text.len() > 18 {
        return None;
    }
    if !is_numeral(text) {
        return None;
    }
    match str::from_utf8(text) {
        Ok(digits) => digits.parse().ok(),
        Err(_) => None,
    }
}

/// Whether the text is of digits, with no 0 before another digit.
fn is_numeral(text: &[u8]) -> bool
    ensures { IsTrue result ↔ IsNumeral text.now }
{
    match text {
        [] => false,
        [b'0', rest @ ..] => rest.is_empty(),
        _ => has_digits_alone(text),
    }
}

fn has_digits_alone(text: &[u8]) -> bool
    ensures { IsTrue result ↔ HasDigitsAlone text.now }
{
    text.iter().all(|b| matches!(*b, b'0'..=b'9'))
}
