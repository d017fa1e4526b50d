//! A program that eliminates systems of rows, which it reads: cases worked by hand, and what the benchmark counts.
//!
//! Promises: nothing; `stdin` and `stdout` are written by hand.
//! Stands on: `sv_lin`, `sv_point`, `sv_cert`, `sv_term`, `sv_text`, `sqlite_items`, `anyhow`.
#![tactic(auto)]

mod check;
mod print;
mod read;

use crate::check::{are_normal, can_cancel};
use crate::print::{print_answer, print_combination, print_count};
use crate::read::row_of;
use anyhow::Error;
use sv_cert::Row;
use sv_lin::{combine_rows, eliminate};

fn main(rt: HostRuntime) -> anyhow::Result<()> {
    let mut rows: Vec<Row> = Vec::new(rt.alloc());
    for line in rt.lines(rt.alloc()) {
        let line = line?;
        let text = line.as_str();
        if let Some(row) = row_of(rt.alloc(), text)? {
            rows.push(row)?;
        } else if let Some(command) = text.strip_prefix("eliminate ") {
            eliminate_rows(&rt, &rows, command, false)?;
            rows.clear();
        } else if let Some(command) = text.strip_prefix("count ") {
            eliminate_rows(&rt, &rows, command, true)?;
            rows.clear();
        } else if text == "combine" {
            combine_two(&rt, &rows)?;
            rows.clear();
        } else {
            println!(rt; "{text}")?;
        }
    }
    Ok(())
}

fn eliminate_rows(
    rt: &HostRuntime,
    rows: &[Row],
    command: &str,
    counts: bool,
) -> Result<(), Error> {
    let limit = command.parse::<u64>().unwrap_or(1);
    if limit < 1 || 200_000 < limit || rows.len() >= 1 << 31 || !are_normal(rows) {
        return Ok(());
    }
    let answer = eliminate(rt.alloc(), rows, limit)?;
    if counts {
        print_count(rt, &answer)
    } else {
        print_answer(rt, &answer)
    }
}

fn combine_two(rt: &HostRuntime, rows: &[Row]) -> Result<(), Error> {
    let [first, second] = rows else {
        return Ok(());
    };
    let own = first.parts.as_slice();
    let other = second.parts.as_slice();
    if !can_cancel(own, other) {
        return Ok(());
    }
    let made = combine_rows(rt.alloc(), first.constant, own, second.constant, other)?;
    print_combination(rt, &made)
}
