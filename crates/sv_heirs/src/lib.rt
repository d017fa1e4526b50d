//! Which contract of a line inherits a declaration last, and where that breaks the rule on overrides.
//!
//! Promises: `heir` is the last contract of a line that has a declaration of a name; `first_breach` the first place at which an heir doesn't
//! derive from another contract of its line that has one. No call takes memory.
//! Stands on: `sqlite_items`.
//! Read first: `specs/Heirs.antt`.
#![tactic(auto)]

mod heirs;

pub use heirs::{first_breach, heir};

#[cfg(test)]
mod tests {
    use super::*;
    use sqlite_items::Items;
    use std::test::Fail;

    /// A diamond of four contracts, and one without a line.
    #[test]
    fn declarations_along_a_diamond(rt: HostRuntime) -> Result<(), Fail> {
        let alloc = rt.alloc();
        let rows: [&[u32]; 4] = [&[0], &[0, 1], &[0, 2], &[0, 1, 2, 3]];
        let mut lines = Items::new(alloc);
        for row in rows {
            lines.push(Some(Items::from_slice(alloc, row)?))?;
        }
        lines.push(None)?;
        let lines = lines.as_slice();
        let sides = [Some(10), Some(20), Some(30)];
        assert_eq!(rt; heir(&sides, &[0, 1, 2, 3]), Some(2));
        assert_eq!(rt; heir(&sides, &[3, 7]), None);
        assert_eq!(rt; first_breach(&sides, lines), Some(30));
        assert_eq!(rt; first_breach(&[None, Some(50), Some(30)], lines), Some(50));
        assert_eq!(rt;
            first_breach(&[Some(10), Some(20), Some(30), Some(40)], lines),
            None
        );
        assert_eq!(rt;
            first_breach(&[Some(10), None, Some(30), None, Some(5)], lines),
            None
        );
        Ok(())
    }
}
