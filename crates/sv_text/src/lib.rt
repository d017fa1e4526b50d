//! Names, spans and places in a text.
//!
//! Promises: each text has one name, in the order in which texts came; a name gives its text back;
//! a byte's place is its line and column, both from 1.
//! Stands on: `indexmap`, `thiserror`.
//! Read first: `specs/Place.antt`.
#![tactic(auto)]

mod names;
mod no_memory;
mod place;
mod span;

pub use names::{Name, Names};
pub use no_memory::NoMemory;
pub use place::{Place, place_of};
pub use span::Span;

#[cfg(test)]
mod tests {
    use super::*;
    use std::test::Fail;

    #[test]
    fn each_text_has_one_name(rt: HostRuntime) -> Result<(), Fail> {
        let mut names = Names::new(rt.alloc());
        assert!(rt; names.is_empty());
        for (text, place) in [("total", 0), ("x", 1), ("total", 0), ("tot", 2)] {
            assert!(rt; names.len() < 4);
            let name = names.intern(text.as_bytes())?;
            assert_eq!(rt; name.position(), place, "of {text}");
            assert_eq!(rt; names.text(name), text.as_bytes());
            assert_eq!(rt; names.find(text.as_bytes()), Some(name));
        }
        assert_eq!(rt; names.len(), 3);
        assert!(rt; !names.is_empty());
        assert_eq!(rt; names.find(b"tota"), None);
        assert_eq!(rt; names.find(b""), None);
        Ok(())
    }

    #[test]
    fn places_of_a_text_with_an_empty_line(rt: HostRuntime) {
        let text = b"ab\n\ncd\n";
        for (at, line, col) in [
            (0, 1, 1),
            (1, 1, 2),
            (2, 1, 3),
            (3, 2, 1),
            (4, 3, 1),
            (5, 3, 2),
            (6, 3, 3),
            (7, 4, 1),
        ] {
            assert!(rt; at as usize <= text.len());
            assert_eq!(rt; place_of(text, at), Place { line, col }, "at {at}");
        }
        assert_eq!(rt; place_of(b"", 0), Place { line: 1, col: 1 });
    }
}
