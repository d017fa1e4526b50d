//! A program that takes steps on a bank, a line each, and writes what comes of each.
//!
//! Promises: that it is safe and ends. Which nodes fit and which numbers they get was worked out by hand, in `stdin` and `stdout`.
//! Stands on: `sv_term`, `sv_text`.
//! Read first: the README's table of steps, then `src/step.rt`.
#![tactic(auto)]

mod naming;
mod sorts;
mod step;

fn main(rt: HostRuntime) -> anyhow::Result<()> {
    let mut bank = sorts::with_sorts(rt.alloc())?;
    for line in rt.lines(rt.alloc()) {
        let line = line?;
        let answer = step::taken(rt.alloc(), &mut bank, line.as_str())?;
        println!(rt; "{line}: {answer}")?;
    }
    Ok(())
}
