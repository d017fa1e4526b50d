use crate::make::{contracts, name};
use crate::plan::{Part, Plan};
use std::test::Fail;
use sv_decl::{Standing, Word};
use sv_member::{Hit, is_private, seen_by};
use sv_text::Names;

const SHOWN: Part<'static> = Part::Variable(&[], 0, 0);

/// `contract A { uint256 private x; uint256 y; } contract B is A { uint256 y; uint256 x; }`
const PLANS: [Plan<'static>; 2] = [
    Plan {
        name: "A",
        standing: Standing::Concrete,
        bases: &[],
        parts: &[("x", Part::Variable(&[Word::Private], 0, 0)), ("y", SHOWN)],
    },
    Plan {
        name: "B",
        standing: Standing::Concrete,
        bases: &[("A", None)],
        parts: &[("y", SHOWN), ("x", SHOWN)],
    },
];

/// The contracts of a line, the number of the one that asks, a name, and what it sees.
type Case = (&'static [u32], u32, &'static str, &'static [(u32, usize)]);

const CASES: [Case; 4] = [
    (&[0, 1], 1, "x", &[(1, 1)]),
    (&[0, 1], 1, "y", &[(0, 1), (1, 0)]),
    (&[0], 0, "x", &[(0, 0)]),
    (&[0, 1], 1, "A", &[]),
];

fn are(hits: &[Hit], due: &[(u32, usize)]) -> bool {
    for (hit, (c, at)) in hits.iter().zip(due) {
        if hit.contract != *c || hit.at != *at {
            return false;
        }
    }
    hits.len() == due.len()
}

#[test]
fn names_seen_along_a_line(rt: HostRuntime) -> Result<(), Fail> {
    let mut names = Names::new(rt.alloc());
    let table = contracts(rt.alloc(), &mut names, &PLANS)?;
    for (line, c, text, due) in CASES {
        let n = name(&mut names, text)?;
        let hits = seen_by(rt.alloc(), table.as_slice(), line, c, n.position())?;
        assert!(rt; are(hits.as_slice(), due));
    }
    Ok(())
}

#[test]
fn private_names(rt: HostRuntime) -> Result<(), Fail> {
    let mut names = Names::new(rt.alloc());
    let table = contracts(rt.alloc(), &mut names, &PLANS)?;
    for (c, due) in table.as_slice().iter().zip([true, false]) {
        for (d, due) in c.declarations.as_slice().iter().zip([due, false]) {
            assert!(rt; is_private(d) == due);
        }
    }
    Ok(())
}
