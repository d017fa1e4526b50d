//! Places by code: a list of codes that grows and shrinks at its end, and for each code the places that have it, from the last on.
//!
//! Promises: `last` and `before` give each place that has a code, in falling order; after `new` no call takes memory.
//! Stands on: `sv_text`.
//! Read first: `specs/Places.antt`.
#![tactic(auto)]

mod table;
mod walk;

pub use table::Table;

#[cfg(test)]
mod tests {
    use super::*;
    use std::test::Fail;

    #[test]
    fn places_of_codes(rt: HostRuntime) -> Result<(), Fail> {
        let mut table = Table::new(rt.alloc(), 5)?;
        for code in [7, 2, 7, 12, 7] {
            assert!(rt; table.len() < table.room());
            table.push(code);
        }
        for (code, last) in [(7, Some(4)), (2, Some(1)), (12, Some(3)), (17, None)] {
            assert_eq!(rt; table.last(code), last, "of {code}");
        }
        assert!(rt; table.len() == 5);
        for (place, before) in [(4, Some(2)), (2, Some(0)), (0, None), (3, None), (1, None)] {
            assert_eq!(rt; table.before(place), before, "at {place}");
        }
        table.truncate(2);
        for (code, last) in [(7, Some(0)), (2, Some(1)), (12, None)] {
            assert_eq!(rt; table.last(code), last, "of {code}, of the first two");
        }
        Ok(())
    }
}
