//! The program `solsv`: it reads a contract on standard input, judges every function of it, and writes the report.
//!
//! Promises: `top::solsv`, which does all that the program does but for making the adapters and the book. Its clauses say what was read,
//! what is written and how the program ends, for every source and every sink.
//! Stands on: `sv_lex` for tokens, `sv_parse_unit` for trees, `sv_first_form` for contracts, `sv_first_judge` for verdicts, `sv_report` for
//! what is written, `sv_io` for where bytes come from and go, and `sv_text`, `sv_grammar`, `sv_ast`, `sv_parse_expr`, `sv_term`.
//! Read first: `specs/Answered.antt` and `specs/Due.antt`, then `src/top.rt`.
#![tactic(auto)]

mod due;
mod laws;
mod reading;
mod top;
mod words;

use std::io;
use std::process::ExitCode;
use sv_io::{StdSink, StdSource};
use sv_term::RuleBook;

fn main(rt: HostRuntime) -> ExitCode {
    let ended = match words::words(&rt) {
        Ok(words) => {
            let book = RuleBook::new(rt.alloc());
            let mut source = StdSource::new(rt.reader());
            let mut sink = StdSink::new(io::writer(&rt));
            top::solsv(rt.alloc(), &words, &mut source, &mut sink, &book)
        }
        Err(ended) => ended,
    };
    ExitCode::from(ended.status())
}
