ghost use Rattle.std.specs.Prelude.{◌≡◌, ◌^◌};
ghost use Rattle.sv_cert.specs.LogReading.{starts_plainly, numeral, negative, positive, integer, sign, flag};
ghost use Rattle.sv_cert.specs.LogSteps.{choice};

/// The number below 2^128 that the word writes without leading zeros.
pub fn numeral(word: &[u8]) -> Option<u128>
    ensures { result ≡ numeral (2 ^ 128) word.now }
{
    if !starts_plainly(word) {
        return None;
    }
    match str::from_utf8(word) {
        Ok(digits) => digits.parse().ok(),
        Err(_) => None,
    }
}

/// Whether the first byte is a digit, and no 0 before others.
fn starts_plainly(word: &[u8]) -> bool
    ensures { result ≡ starts_plainly word.now }
{
    match word {
        [] => false,
        [first, rest @ ..] => first.is_ascii_digit() && (*first != b'0' || rest.is_empty()),
    }
}

/// The number of an `i128` that the word writes, with `-` before a negative one.
pub fn integer(word: &[u8]) -> Option<i128>
    ensures { result ≡ integer word.now }
{
    match word.split_first() {
        Some((first, digits)) if *first == b'-' => negative(digits),
        _ => positive(word),
    }
}

fn negative(digits: &[u8]) -> Option<i128>
    ensures { result ≡ negative digits.now }
{
    match numeral(digits) {
        Some(0) => None,
        Some(size) if size <= 1 << 127 => Some(-1 - (size - 1) as i128),
        _ => None,
    }
}

fn positive(digits: &[u8]) -> Option<i128>
    ensures { result ≡ positive digits.now }
{
    match numeral(digits) {
        Some(size) if size < 1 << 127 => Some(size as i128),
        _ => None,
    }
}

/// `+` for true and `-` for false.
pub fn sign(word: &[u8]) -> Option<bool>
    ensures { result ≡ sign word.now }
{
    choice(word, b'+', b'-')
}

/// `1` for true and `0` for false.
pub fn flag(word: &[u8]) -> Option<bool>
    ensures { result ≡ flag word.now }
{
    choice(word, b'1', b'0')
}

fn choice(word: &[u8], yes: u8, no: u8) -> Option<bool>
    ensures { result ≡ choice yes no word.now }
{
    let [byte] = word else {
        return None;
    };
    if *byte == yes {
        Some(true)
    } else if *byte == no {
        Some(false)
    } else {
        None
    }
}
