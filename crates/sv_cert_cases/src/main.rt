//! A program that reads the text of a log from each line, `;` for a newline and `~` for a thousand `[`, and writes what was read.
//!
//! Promises: that it is safe and ends. Which texts are read, and which line is the first that is no entry, was worked out by hand, in `stdin` and `stdout`.
//! Stands on: `sv_cert`.
//! Read first: the README's table of answers.
#![tactic(auto)]

use std::alloc::{AllocError, Global};
use sv_cert::{LogFault, log_text, read_log};

/// The number of the first line of each text.
const FIRST: u32 = 1;

/// The longest text that is read.
const LONGEST: usize = 1 << 30;

fn main(rt: HostRuntime) -> anyhow::Result<()> {
    for line in rt.lines(rt.alloc()) {
        let line = line?;
        match line.as_str().split_once(' ') {
            Some((version, text)) => {
                let answer = answer(rt.alloc(), version, text.as_bytes())?;
                println!(rt; "{answer}")?;
            }
            None => println!(rt; "no case")?,
        }
    }
    Ok(())
}

/// What comes of reading a text whose version is given before it.
fn answer(alloc: Global, version: &str, shown: &[u8]) -> Result<String, AllocError> {
    let Ok(version) = version.parse() else {
        return String::from_str(alloc, "no version");
    };
    let text = with_lines(alloc, shown)?;
    if text.len() > LONGEST {
        return String::from_str(alloc, "too long");
    }
    match read_log(alloc, text.as_slice(), FIRST, version) {
        Ok(log) => {
            let entries = log.entries.len();
            match log_text(alloc, &log) {
                Ok(again) if again == text => format!(in alloc; "{entries} entries"),
                Ok(_) => String::from_str(alloc, "another text"),
                Err(_) => String::from_str(alloc, "out of memory"),
            }
        }
        Err(LogFault::LogSyntax(n)) => format!(in alloc; "LogSyntax({n})"),
        Err(LogFault::LogVersion(n)) => format!(in alloc; "LogVersion({n})"),
        Err(LogFault::NoMemory) => String::from_str(alloc, "out of memory"),
    }
}

fn with_lines(alloc: Global, shown: &[u8]) -> Result<Vec<u8>, AllocError> {
    let mut text = Vec::new(alloc);
    for byte in shown {
        match *byte {
            b';' => text.push(b'\n')?,
            b'~' => text.extend_from_slice(&[b'['; 1000])?,
            other => text.push(other)?,
        }
    }
    Ok(text)
}
