//! Lines of contracts.
//!
//! Promises: each contract has the line of its C3 order, or the first contract without an order is named.
//! Stands on: `sqlite_items`.
//! Read first: `specs/Lines.antt`.
#![tactic(auto)]

mod lines;

pub use lines::{LineFault, linearise, order_of};

#[cfg(test)]
mod tests {
    use super::*;
    use sqlite_items::Items;
    use std::alloc::Global;
    use std::test::Fail;

    type Lined = Result<Items<Items<u32>>, LineFault>;

    fn lists(alloc: Global, rows: &[&[u32]]) -> Result<Items<Items<u32>>, Fail> {
        let mut out = Items::new(alloc);
        for row in rows {
            out.push(Items::from_slice(alloc, row)?)?;
        }
        Ok(out)
    }

    /// The lines of contracts with these bases, which are few.
    fn lines_of(alloc: Global, rows: &[&[u32]]) -> Result<Lined, Fail> {
        let bases = lists(alloc, rows)?;
        let bases = bases.as_slice();
        if bases.len() > 100 {
            return Ok(Err(LineFault::NoMemory));
        }
        Ok(linearise(alloc, bases))
    }

    fn is_line(lines: &Items<Items<u32>>, c: usize, want: &[u32]) -> bool {
        match lines.as_slice().get(c) {
            Some(line) => *line.as_slice() == *want,
            None => false,
        }
    }

    #[test]
    fn a_diamond(rt: HostRuntime) -> Result<(), Fail> {
        match lines_of(rt.alloc(), &[&[], &[0], &[0], &[1, 2]])? {
            Ok(lines) => {
                assert!(rt; lines.len() == 4);
                assert!(rt; is_line(&lines, 0, &[0]));
                assert!(rt; is_line(&lines, 1, &[0, 1]));
                assert!(rt; is_line(&lines, 2, &[0, 2]));
                assert!(rt; is_line(&lines, 3, &[0, 1, 2, 3]));
            }
            Err(_) => assert!(rt; false),
        }
        Ok(())
    }

    /// The example of an encyclopedia's page on the C3 order, the bases from last to first: O A B C D E K1 K3 K2 Z.
    #[test]
    fn three_bases_each(rt: HostRuntime) -> Result<(), Fail> {
        let lines = lines_of(
            rt.alloc(),
            &[
                &[],
                &[0],
                &[0],
                &[0],
                &[0],
                &[0],
                &[2, 1, 3],
                &[4, 1],
                &[5, 4, 2],
                &[8, 7, 6],
            ],
        )?;
        match lines {
            Ok(lines) => assert!(rt; is_line(&lines, 9, &[0, 5, 4, 2, 8, 1, 7, 3, 6, 9])),
            Err(_) => assert!(rt; false),
        }
        Ok(())
    }

    #[test]
    fn contracts_without_an_order(rt: HostRuntime) -> Result<(), Fail> {
        for (rows, first) in [
            ([&[] as &[u32], &[0], &[1, 0], &[2, 2]], 2),
            ([&[] as &[u32], &[], &[0, 0], &[1, 0]], 2),
            ([&[] as &[u32], &[0], &[0, 1], &[0, 2, 1]], 3),
        ] {
            match lines_of(rt.alloc(), &rows)? {
                Err(LineFault::None(c)) => assert_eq!(rt; c, first),
                _ => assert!(rt; false),
            }
        }
        Ok(())
    }
}
