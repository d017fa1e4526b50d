//! A program that judges the log of each line, `;` for a newline, from the condition that stands before it, and writes what came of it.
//!
//! Promises: that it is safe and ends. Which entries are accepted, and why another isn't, was worked out by hand, in `stdin` and `stdout`.
//! Stands on: `sv_checker`, `sv_cert`, `sv_term`.
//! Read first: the README's table of answers.
#![tactic(auto)]

mod condition;
mod judged;

fn main(rt: HostRuntime) -> anyhow::Result<()> {
    for line in rt.lines(rt.alloc()) {
        let line = line?;
        match line.as_str().split_once('|') {
            Some((condition, log)) => {
                let answer = judged::answer_of(rt.alloc(), condition, log.as_bytes())?;
                println!(rt; "{answer}")?;
            }
            None => println!(rt; "no case")?,
        }
    }
    Ok(())
}
