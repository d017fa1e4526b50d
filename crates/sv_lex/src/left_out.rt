//! Words and operators of Solidity that are left out.

ghost use Rattle.std.specs.Prelude.{◌≡◌, map};
ghost use Rattle.sv_lex.specs.Lexing.{GivesFirst};
ghost use Rattle.sv_lex.specs.Limits.{IsOut, is_among, is_left_out};

use crate::tok::Tok;
use crate::tokens::Tokens;
use sv_text::Place;

/// The words that are left out.
const LEFT_OUT_WORDS: [&[u8]; 61] = [
    b"import",
    b"library",
    b"using",
    b"assembly",
    b"try",
    b"catch",
    b"do",
    b"delegatecall",
    b"staticcall",
    b"callcode",
    b"selfdestruct",
    b"suicide",
    b"abi",
    b"keccak256",
    b"sha256",
    b"ripemd160",
    b"ecrecover",
    b"blockhash",
    b"gasleft",
    b"addmod",
    b"mulmod",
    b"tx",
    b"bytes",
    b"byte",
    b"fixed",
    b"ufixed",
    b"unicode",
    b"hex",
    b"transient",
    b"bytes1",
    b"bytes2",
    b"bytes3",
    b"bytes4",
    b"bytes5",
    b"bytes6",
    b"bytes7",
    b"bytes8",
    b"bytes9",
    b"bytes10",
    b"bytes11",
    b"bytes12",
    b"bytes13",
    b"bytes14",
    b"bytes15",
    b"bytes16",
    b"bytes17",
    b"bytes18",
    b"bytes19",
    b"bytes20",
    b"bytes21",
    b"bytes22",
    b"bytes23",
    b"bytes24",
    b"bytes25",
    b"bytes26",
    b"bytes27",
    b"bytes28",
    b"bytes29",
    b"bytes30",
    b"bytes31",
    b"bytes32",
];

/// The operators that are left out.
const LEFT_OUT_MARKS: [&[u8]; 13] = [
    b"&", b"|", b"^", b"~", b"<<", b">>", b">>>", b"&=", b"|=", b"^=", b"<<=", b">>=", b">>>=",
];

/// Whether the text is one of these.
pub fn is_among(texts: &[&[u8]], text: &[u8]) -> bool
    ensures { result ≡ is_among (map (λ t. t.now) texts.now) text.now }
{
    texts.iter().any(|other| text == *other)
}

fn is_left_out(kind: Tok, text: &[u8]) -> bool
    ensures { result ≡ is_left_out kind text.now }
{
    match kind {
        Tok::Word => is_among(&LEFT_OUT_WORDS, text),
        Tok::Punct => is_among(&LEFT_OUT_MARKS, text),
        _ => false,
    }
}

/// The place of the first word or operator that is left out.
pub fn out_word(tokens: &Tokens<'_>) -> Option<Place>
    ensures { GivesFirst IsOut tokens.now result }
{
    for token in tokens.as_slice() {
        if is_left_out(token.kind, token.text) {
            return Some(token.place);
        }
    }
    None
}
