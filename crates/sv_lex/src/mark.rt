//! Punctuation.

ghost use Rattle.std.specs.Prelude.{Contains, IsTrue, map};
ghost use Rattle.sv_lex.specs.Forms.{marks};
ghost use Rattle.sv_lex.specs.Longest.{IsLongestSuch, longest_first};

/// The punctuation of Solidity, operators that are left out included. Longer ones come first.
const MARKS: [&[u8]; 48] = [
    b">>>=", b">>>", b"<<=", b">>=", b"=>", b"==", b"!=", b"<=", b">=", b"**", b"++", b"--", b"+=",
    b"-=", b"*=", b"/=", b"%=", b"&&", b"||", b"<<", b">>", b"&=", b"|=", b"^=", b"(", b")", b"[",
    b"]", b"{", b"}", b";", b",", b".", b"?", b":", b"=", b"<", b">", b"+", b"-", b"*", b"/", b"%",
    b"!", b"&", b"|", b"^", b"~",
];

/// The length of the longest of these fronts with which the text begins; 0 where none is. Longer ones come first.
fn front_len(fronts: &[&[u8]], text: &[u8]) -> usize
    requires { IsTrue (longest_first (map (λ front. front.now) fronts.now)) }
    ensures { IsLongestSuch (Contains (map (λ front. front.now) fronts.now)) text.now result }
{
    for front in fronts {
        if text.starts_with(front) {
            return front.len();
        }
    }
    0
}

/// The length of the longest punctuation that the text begins with; 0 where none is.
pub fn mark_len(text: &[u8]) -> usize
    ensures { IsLongestSuch (Contains marks) text.now result }
{
    front_len(&MARKS, text)
}
