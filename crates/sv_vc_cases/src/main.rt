//! A program that makes the conditions of commands, a line each, and writes which of them hold for small values.
//!
//! Promises: that it is safe and ends, and that `conditions` is asked of formed commands alone. Which conditions hold was worked out by hand, in `stdin` and `stdout`.
//! Stands on: `sv_vc`, `sv_gcl`, `sv_term`, `sv_core`, `sv_text`.
//! Read first: the README's table of words, then `src/judging.rt`.
#![tactic(auto)]

mod formed;
mod judging;
mod naming;
mod reading;
mod values;

fn main(rt: HostRuntime) -> anyhow::Result<()> {
    for line in rt.lines(rt.alloc()) {
        let line = line?;
        let answer = judging::judged(rt.alloc(), line.as_str())?;
        println!(rt; "{line}:{answer}")?;
    }
    Ok(())
}
