//! What is reached in a graph, and what lies on its rings.
//!
//! Promises: `reached` marks exactly the nodes that a path from a start reaches, `on_a_ring` exactly those that a path of at least one edge leads
//! back to.
//! Stands on: `sqlite_items`.
//! Read first: `specs/Paths.antt`.
#![tactic(auto)]

mod reach;
mod rings;
mod strip;

pub use reach::reached;
pub use rings::on_a_ring;

#[cfg(test)]
mod tests {
    use super::*;
    use sqlite_items::Items;
    use std::alloc::Global;
    use std::test::Fail;

    fn graph(alloc: Global, rows: &[&[u32]]) -> Result<Items<Items<u32>>, Fail> {
        let mut out = Items::new(alloc);
        for row in rows {
            out.push(Items::from_slice(alloc, row)?)?;
        }
        Ok(out)
    }

    fn are(marks: &Items<bool>, want: &[bool]) -> bool {
        *marks.as_slice() == *want
    }

    #[test]
    fn paths_from_two_starts(rt: HostRuntime) -> Result<(), Fail> {
        let alloc = rt.alloc();
        let graph = graph(alloc, &[&[1, 9], &[2], &[1], &[0], &[4, 5], &[], &[3]])?;
        let marks = reached(alloc, graph.as_slice(), &[0, 5, 7])?;
        assert!(rt; are(&marks, &[true, true, true, false, false, true, false]));
        let none = reached(alloc, graph.as_slice(), &[])?;
        assert!(rt; are(&none, &[false; 7]));
        Ok(())
    }

    /// A ring of three nodes and one of six that share two edges, a node that names itself, one that leads to it, and one that leads nowhere.
    #[test]
    fn rings(rt: HostRuntime) -> Result<(), Fail> {
        let alloc = rt.alloc();
        let graph = graph(
            alloc,
            &[
                &[1],
                &[2, 4],
                &[0, 7],
                &[0],
                &[],
                &[5, 9],
                &[3],
                &[6, 8],
                &[9, 5],
            ],
        )?;
        let marks = on_a_ring(alloc, graph.as_slice())?;
        assert!(rt;
            are(
                &marks,
                &[true, true, true, true, false, true, true, true, false]
            )
        );
        let none = on_a_ring(alloc, &[])?;
        assert!(rt; none.is_empty());
        Ok(())
    }
}
