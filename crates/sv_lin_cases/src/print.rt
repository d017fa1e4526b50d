use anyhow::Error;
use sqlite_items::Items;
use sv_cert::{Entry, Excess};
use sv_lin::{Combination, Eliminated};
use sv_term::TermId;

/// Prints the entries and what they come to.
pub fn print_answer(rt: &HostRuntime, answer: &Eliminated) -> Result<(), Error> {
    match answer {
        Eliminated::Contradiction(entries) => {
            print_entries(rt, entries)?;
            println!(rt; "contradiction")?;
        }
        Eliminated::Point(entries, point) => {
            print_entries(rt, entries)?;
            print!(rt; "point")?;
            print_point(rt, point)?;
        }
        Eliminated::Spent(entries) => {
            print_entries(rt, entries)?;
            println!(rt; "spent")?;
        }
        Eliminated::Excess(entries, excess) => {
            print_entries(rt, entries)?;
            print_excess(rt, excess)?;
        }
    }
    Ok(())
}

/// Prints how many entries there are.
pub fn print_count(rt: &HostRuntime, answer: &Eliminated) -> Result<(), Error> {
    match answer {
        Eliminated::Contradiction(entries) => println!(rt; "{} contradiction", entries.len())?,
        Eliminated::Point(entries, _) => println!(rt; "{} point", entries.len())?,
        Eliminated::Spent(entries) => println!(rt; "{} spent", entries.len())?,
        Eliminated::Excess(entries, _) => println!(rt; "{} excess", entries.len())?,
    }
    Ok(())
}

fn print_entries(rt: &HostRuntime, entries: &Items<Entry>) -> Result<(), Error> {
    for entry in entries.as_slice() {
        match entry {
            Entry::Combine(m, p, n, q, row) => {
                print!(rt; "k {m} {p} {n} {q} {}", row.constant)?;
                print_parts(rt, row.parts.as_slice())?;
            }
            Entry::Divide(by, p, row) => {
                print!(rt; "g {by} {p} {}", row.constant)?;
                print_parts(rt, row.parts.as_slice())?;
            }
            _ => println!(rt; "another entry")?,
        }
    }
    Ok(())
}

/// Prints the multipliers and the row.
pub fn print_combination(rt: &HostRuntime, made: &Option<Combination>) -> Result<(), Error> {
    match made {
        Some(made) => {
            print!(rt; "{} {} {}", made.m, made.n, made.constant)?;
            print_parts(rt, made.parts.as_slice())?;
        }
        None => println!(rt; "too large")?,
    }
    Ok(())
}

fn print_parts(rt: &HostRuntime, parts: &[(i128, usize)]) -> Result<(), Error> {
    for (factor, column) in parts {
        print!(rt; " {factor} {column}")?;
    }
    println!(rt; "")?;
    Ok(())
}

fn print_excess(rt: &HostRuntime, excess: &Excess) -> Result<(), Error> {
    match excess {
        Excess::Rows(i, j) => println!(rt; "rows {i} {j}")?,
        Excess::Value(i, point) => {
            print!(rt; "value {i}")?;
            print_point(rt, point)?;
        }
        _ => println!(rt; "another excess")?,
    }
    Ok(())
}

fn print_point(rt: &HostRuntime, point: &Items<(TermId, i128, i128)>) -> Result<(), Error> {
    for (column, top, under) in point.as_slice() {
        print!(rt; " {}={top}/{under}", column.0)?;
    }
    println!(rt; "")?;
    Ok(())
}
