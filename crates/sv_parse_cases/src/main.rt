//! A program that reads expressions, types, arguments and annotation lines from the lines of a text: cases worked by hand.
//!
//! Promises: nothing; `stdin` and `stdout` are written by hand.
//! Stands on: `sv_notes`, `sv_parse_expr`, `sv_ast`, `sv_lex`, `sv_text`, `anyhow`.
#![tactic(auto)]

mod notes;
mod parts;

use crate::notes::print_notes;
use crate::parts::{print_behind, print_fault};
use anyhow::Error;
use sv_lex::{deep, lex};
use sv_parse_expr::{parse_args, parse_expr, parse_type};
use sv_text::Names;

fn main(rt: HostRuntime) -> anyhow::Result<()> {
    for line in rt.lines(rt.alloc()) {
        let line = line?;
        match line.as_str().split_once(' ') {
            Some((part, text)) => print_case(&rt, part, text)?,
            None => println!(rt; "{}", line.as_str())?,
        }
    }
    Ok(())
}

/// Prints the line and what it comes to; `\n` in a text stands for the end of a line.
fn print_case(rt: &HostRuntime, part: &str, text: &str) -> Result<(), Error> {
    print!(rt; "{part} {text} -> ")?;
    let text = text.replace(rt.alloc(), "\\n", "\n")?;
    let tokens = lex(rt.alloc(), text.as_bytes())?;
    if let Some(place) = deep(&tokens) {
        return print_fault(rt, place);
    }
    let mut names = Names::new(rt.alloc());
    match part {
        "expr" => print_behind(rt, parse_expr(rt.alloc(), &tokens, 0, &mut names)),
        "type" => print_behind(rt, parse_type(rt.alloc(), &tokens, 0, &mut names)),
        "args" => print_behind(rt, parse_args(rt.alloc(), &tokens, 0, &mut names)),
        _ => print_notes(rt, &tokens),
    }
}
