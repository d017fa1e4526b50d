use std::alloc::Global;
use std::test::Fail;
use sv_first_form::parse::parse;
use sv_first_form::{Act, FormError, Item};
use sv_lex::{Tok, Token};
use sv_text::{Place, Span};

/// A token for each word; `@` stands for the beginning of a note, and `.` for its end.
fn token_of(word: &str) -> Token<'_> {
    let (kind, text) = match word.as_bytes() {
        b"@" => (Tok::Note, b"invariant".as_slice()),
        b"." => (Tok::End, b"".as_slice()),
        bytes => (kind_of(bytes), bytes),
    };
    Token {
        kind,
        text,
        span: Span { from: 0, to: 0 },
        place: Place { line: 1, col: 1 },
    }
}

fn kind_of(bytes: &[u8]) -> Tok {
    match bytes {
        [b'0'..=b'9', ..] => Tok::Number,
        [b'a'..=b'z' | b'A'..=b'Z', ..] => Tok::Word,
        _ => Tok::Punct,
    }
}

fn tokens_of<'a>(alloc: Global, text: &'a str) -> Result<Vec<Token<'a>>, Fail> {
    let mut tokens = Vec::new(alloc);
    for word in text.split_whitespace() {
        tokens.push(token_of(word))?;
    }
    Ok(tokens)
}

/// Whether the text has the first form.
fn has_form(alloc: Global, text: &str) -> Result<bool, Fail> {
    let tokens = tokens_of(alloc, text)?;
    if tokens.len() > 1000 {
        return Err(FormError::NoMemory)?;
    }
    let contract = parse(alloc, tokens.as_slice());
    Ok(contract.is_ok())
}

/// A contract of one variable whose function has so many statements.
fn with_acts(alloc: Global, count: u32) -> Result<String, Fail> {
    let mut text = String::from_str(
        alloc,
        "@ a == a . contract C { uint256 a ; function f ( ) public { ",
    )?;
    for _ in 0..count {
        text.push_str("a = a ; ")?;
    }
    text.push_str("} }")?;
    Ok(text)
}

const COUNTERS: &str = "@ a == b . contract Counters { uint256 a ; uint256 b ; \
    function up ( ) public { a = a + 1 ; b = b + 1 ; } function clear ( ) public { a = 0 ; b = a ; } }";

#[test]
fn counters_are_read(rt: HostRuntime) -> Result<(), Fail> {
    let tokens = tokens_of(rt.alloc(), COUNTERS)?;
    assert!(rt; tokens.len() < 100);
    let contract = parse(rt.alloc(), tokens.as_slice())?;
    assert!(rt; contract.name.bytes() == b"Counters".as_slice());
    let names = contract.variables.as_slice();
    assert_eq!(rt; names.len(), 2);
    assert!(rt; names[0].bytes() == b"a".as_slice());
    assert!(rt; names[1].bytes() == b"b".as_slice());
    let invariants = contract.invariants.as_slice();
    assert_eq!(rt; invariants.len(), 1);
    assert_eq!(rt;
        invariants[0].left.as_slice(),
        [Item::Variable(0)].as_slice()
    );
    assert_eq!(rt;
        invariants[0].right.as_slice(),
        [Item::Variable(1)].as_slice()
    );
    let functions = contract.functions.as_slice();
    assert_eq!(rt; functions.len(), 2);
    assert!(rt; functions[0].name.bytes() == b"up".as_slice());
    assert!(rt; functions[1].name.bytes() == b"clear".as_slice());
    let acts = functions[0].acts.as_slice();
    assert_eq!(rt; acts.len(), 2);
    let Act::Assign(target, sum) = &acts[1] else {
        return Err(FormError::Unbuilt)?;
    };
    assert_eq!(rt; *target, 1);
    assert_eq!(rt;
        sum.as_slice(),
        [Item::Variable(1), Item::Number(1)].as_slice()
    );
    Ok(())
}

/// Texts, with whether each has the first form.
const CASES: [(&str, bool); 38] = [
    (COUNTERS, true),
    ("@ a == a . contract C { uint256 a ; }", true),
    (
        "@ a == a . contract C { uint256 a ; function f ( ) public { } }",
        true,
    ),
    (
        "@ abcdefgh == abcdefgh . contract C { uint256 abcdefgh ; }",
        true,
    ),
    ("@ a + a + 1 + 0 == a . contract C { uint256 a ; }", true),
    (
        "@ a == a + 999999999999999999 . contract C { uint256 a ; }",
        true,
    ),
    (
        "@ a == a . contract C { uint256 a ; function f ( ) public { a = 7 ; } }",
        true,
    ),
    // any number of invariants, and `require`
    ("contract C { }", true),
    ("contract C { uint256 a ; }", true),
    ("@ a == a . @ a == a . contract C { uint256 a ; }", true),
    (
        "@ a == a . contract C { uint256 a ; function f ( ) public { require ( a == a ) ; } }",
        true,
    ),
    // names
    ("@ a == a . contract C { uint256 a ; uint256 a ; }", false),
    ("@ a == a . contract a { uint256 a ; }", false),
    (
        "@ a == a . contract C { uint256 a ; function a ( ) public { } }",
        false,
    ),
    (
        "@ a == a . contract C { uint256 a ; function C ( ) public { } }",
        false,
    ),
    (
        "@ a == a . contract C { uint256 a ; function f ( ) public { } function f ( ) public { } }",
        false,
    ),
    ("@ view == view . contract C { uint256 view ; }", false),
    ("@ a == a . contract public { uint256 a ; }", false),
    (
        "@ a == a . contract C { uint256 a ; function value ( ) public { } }",
        false,
    ),
    (
        "@ a == a . contract C { uint256 a ; function abcdefghi ( ) public { } }",
        false,
    ),
    (
        "@ a == a . contract C { uint256 a ; function f1 ( ) public { } }",
        false,
    ),
    ("@ contract == a . contract C { uint256 a ; }", false),
    ("@ a == b . contract C { uint256 a ; }", false),
    (
        "@ a == a . contract C { uint256 a ; function f ( ) public { b = a ; } }",
        false,
    ),
    // sums and numbers
    (
        "@ a + a + a + a + a == a . contract C { uint256 a ; }",
        false,
    ),
    (
        "@ a == a + 1000000000000000000 . contract C { uint256 a ; }",
        false,
    ),
    ("@ a == a + 01 . contract C { uint256 a ; }", false),
    ("@ a == a + 1e3 . contract C { uint256 a ; }", false),
    ("@ a == 1 . contract C { uint256 a ; }", false),
    ("@ 1 == a . contract C { uint256 a ; }", false),
    (
        "@ a == a . contract C { uint256 a ; function f ( ) public { a = 1 + a ; } }",
        false,
    ),
    (
        "@ a == a . contract C { uint256 a ; function f ( ) public { a = a + ; } }",
        false,
    ),
    // what stands where
    ("", false),
    ("@ a == a contract C { uint256 a ; }", false),
    ("@ a == a . contract C { uint256 a ; ", false),
    ("@ a == a . contract C { uint256 a ; } }", false),
    (
        "@ a == a . contract C { uint256 a ; function f ( ) public { a = a ; }",
        false,
    ),
    (
        "@ a == a . contract C { function f ( ) public { } uint256 a ; }",
        false,
    ),
];

#[test]
fn texts_are_told_apart(rt: HostRuntime) -> Result<(), Fail> {
    for (text, expected) in CASES.iter() {
        assert!(rt; has_form(rt.alloc(), *text)? == *expected, "{text}");
    }
    Ok(())
}

#[test]
fn a_function_has_at_most_16_acts(rt: HostRuntime) -> Result<(), Fail> {
    let most = with_acts(rt.alloc(), 16)?;
    assert_eq!(rt; has_form(rt.alloc(), most.as_str())?, true);
    let over = with_acts(rt.alloc(), 17)?;
    assert_eq!(rt; has_form(rt.alloc(), over.as_str())?, false);
    Ok(())
}
