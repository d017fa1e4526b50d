use std::alloc::Global;
use std::fmt::Write;
use std::test::Fail;
use sv_lex::{LexFault, Tokens, deep, lex, out_word};
use sv_text::Place;

/// The tokens of texts worked by hand: the kind of each, and the offsets of its first byte and behind its last.
#[test]
fn texts_worked_by_hand(rt: HostRuntime) -> Result<(), Fail> {
    let cases: [(&[u8], &str); 12] = [
        (b"", ""),
        (b" \t\r\n", ""),
        (b"a$_9 /* x */ 1_000e18", "Word 0-4, Number 13-21, "),
        (b"0xF_f 0 'a\\x41\"'", "Hex 0-5, Number 6-7, Str 8-16, "),
        (b">>>=a//b", "Punct 0-4, Word 4-5, "),
        (b"pragma x /* ;", "Pragma 0-12, Punct 12-13, "),
        (
            b"/// @notice invariant a",
            "Note 12-21, Word 22-23, End 23-23, ",
        ),
        (b"////@notice invariant a", ""),
        (b"/**/b", "Word 4-5, "),
        (
            b"/** *\t@notice\t precondition a\n**@notice postcondition b*/",
            "Note 15-27, Word 28-29, End 29-29, Note 40-53, Word 54-55, End 55-55, ",
        ),
        (b"/// @notice invariantx a\n/// @notice modifies a", ""),
        (
            b"/// @notice invariant a /* b */ // c\r\nd",
            "Note 12-21, Word 22-23, End 37-37, Word 38-39, ",
        ),
    ];
    for (text, due) in cases {
        let tokens = lex(rt.alloc(), text)?;
        let shown = show(rt.alloc(), &tokens)?;
        assert_eq!(rt; shown.as_str(), due);
    }
    Ok(())
}

/// Each token with its span.
fn show(alloc: Global, tokens: &Tokens<'_>) -> Result<String, Fail> {
    let mut shown = String::new(alloc);
    for token in tokens.as_slice() {
        write!(
            shown,
            "{:?} {}-{}, ",
            token.kind, token.span.from, token.span.to
        )?;
    }
    Ok(shown)
}

/// The first fault of a text worked by hand.
#[test]
fn faults_worked_by_hand(rt: HostRuntime) {
    let cases: [(&[u8], bool, u32); 22] = [
        (b"08", true, 2),
        (b"0x", true, 2),
        (b"1_", true, 2),
        (b"1__2", true, 2),
        (b"1e123", true, 5),
        (b"0x1g", true, 4),
        (b"1a", true, 2),
        (b"a @", true, 3),
        (b"\x80", true, 1),
        (b"'a\tb'", true, 1),
        (b" '\\z'", true, 2),
        (b" '\\x4'", true, 2),
        (b" 'a", false, 2),
        (b" 'a\n'", false, 2),
        (b" '\\u12\n", false, 2),
        (b"a /* b *", false, 3),
        (b"a pragma b", false, 3),
        (b"/// @notice invariant 'a\n'", false, 23),
        (b"/** @notice invariant 'a*/'", false, 23),
        (b"/// @notice invariant /* a\n*/", false, 23),
        (b"/** @notice invariant 09 ", false, 1),
        (b"/** @notice invariant 09*/", true, 24),
    ];
    for (text, is_char, col) in cases {
        let place = Place { line: 1, col };
        let due = if is_char {
            LexFault::Char(place)
        } else {
            LexFault::Unclosed(place)
        };
        match lex(rt.alloc(), text) {
            Ok(_) => assert!(rt; false, "col {col}"),
            Err(fault) => assert_eq!(rt; fault, due),
        }
    }
}

#[test]
fn limits(rt: HostRuntime) -> Result<(), Fail> {
    let tokens = lex(rt.alloc(), b"/// @notice invariant tx")?;
    assert_eq!(rt; out_word(&tokens), Some(Place { line: 1, col: 23 }));
    assert_eq!(rt; deep(&tokens), None);
    let brackets = [b'('; 65];
    let tokens = lex(rt.alloc(), &brackets)?;
    assert_eq!(rt; deep(&tokens), Some(Place { line: 1, col: 65 }));
    assert_eq!(rt; out_word(&tokens), None);
    let commas = [b','; 1001];
    let tokens = lex(rt.alloc(), &commas)?;
    assert_eq!(rt; deep(&tokens), Some(Place { line: 1, col: 1001 }));
    let tokens = lex(rt.alloc(), &commas[1..])?;
    assert_eq!(rt; deep(&tokens), None);
    Ok(())
}
