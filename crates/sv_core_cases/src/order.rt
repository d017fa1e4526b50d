use anyhow::Error;
use std::cmp::Ordering;
use sv_core::{Label, Site, compare};
use sv_text::{Name, Names, Place};

/// Labels in their order: by place, then by kind, then by number, and those at the end last.
const LABELS: &[(u32, u32, u8, u32)] = &[
    (3, 9, 1, 2),
    (3, 9, 2, 1),
    (3, 9, 3, 1),
    (3, 9, 4, 0),
    (3, 9, 5, 1),
    (3, 9, 5, 2),
    (3, 9, 6, 1),
    (3, 10, 1, 1),
    (4, 1, 1, 1),
    (0, 0, 7, 1),
    (0, 0, 7, 2),
    (0, 0, 8, 1),
];

/// Prints how each label stands to each: above the diagonal all are less.
pub fn print_order(rt: &HostRuntime) -> Result<(), Error> {
    let mut names = Names::new(rt.alloc());
    let of = names.intern(b"C")?;
    for a in LABELS {
        let mut line = String::new(rt.alloc());
        for b in LABELS {
            let a = label(*a, of);
            let b = label(*b, of);
            line.push(match compare(&a, &b) {
                Ordering::Less => '<',
                Ordering::Equal => '=',
                Ordering::Greater => '>',
            })?;
        }
        println!(rt; "{line}")?;
    }
    Ok(())
}

fn label((line, col, kind, number): (u32, u32, u8, u32), of: Name) -> Label {
    let site = if line == 0 {
        Site::End
    } else {
        Site::At(Place { line, col })
    };
    Label {
        site,
        kind,
        number,
        of,
    }
}
