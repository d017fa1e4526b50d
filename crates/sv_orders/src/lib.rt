//! The line of each contract that has one.
//!
//! Promises: each contract has its line, exactly where each of its bases stands before it and has a line and the orders of the bases merge; a line ends
//! with its contract, holds none twice, and holds exactly the contracts that its contract reaches through bases.
//! Stands on: `sv_lines`, and on `sv_reach` for what is reached.
//! Read first: `specs/LineTables.antt`, `specs/LineLaws.antt`.
#![tactic(auto)]

pub mod laws;
mod orders;

pub use orders::each_line;

#[cfg(test)]
mod tests {
    use super::*;
    use sqlite_items::Items;
    use std::test::Fail;

    /// Half a diamond; a crossed pair, which has no order, and its heir; a base named twice; bases that stand behind, or nowhere.
    #[test]
    fn lines_among_contracts_without_one(rt: HostRuntime) -> Result<(), Fail> {
        let alloc = rt.alloc();
        let rows: [&[u32]; 9] = [
            &[],
            &[0],
            &[1, 0],
            &[2],
            &[0, 1],
            &[5],
            &[9],
            &[4, 4],
            &[0, 4],
        ];
        let wanted: [&[u32]; 9] = [
            &[0],
            &[0, 1],
            &[],
            &[],
            &[0, 1, 4],
            &[],
            &[],
            &[],
            &[0, 1, 4, 8],
        ];
        let mut bases = Items::new(alloc);
        for row in rows {
            bases.push(Items::from_slice(alloc, row)?)?;
        }
        if bases.len() < 10 {
            let lines = each_line(alloc, bases.as_slice())?;
            assert!(rt; lines.len() == 9);
            for (line, want) in lines.as_slice().iter().zip(wanted) {
                match line {
                    Some(line) => assert!(rt; *line.as_slice() == *want),
                    None => assert!(rt; want.is_empty()),
                }
            }
        }
        Ok(())
    }
}
