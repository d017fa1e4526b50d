//! A program over resolved contracts: their labels, copies and types, and what the benchmark counts.
//!
//! Promises: nothing; it runs the calls of `sv_core` and `sv_type` on contracts that are written in tables, and `stdout` is written by hand.
//! Stands on: `sv_core`, `sv_type`, `sv_text`, `sqlite_items`, `anyhow`.
#![tactic(auto)]

mod make;
mod named;
mod nested;
mod order;
mod plan;
mod rows;

use crate::make::{built, many};
use crate::named::is_named;
use crate::plan::Plan;
use anyhow::Error;
use std::alloc::Global;
use sv_core::{Core, FuncId, copy_core, func_text, label_text, labels};
use sv_text::{Names, NoMemory};

fn main(rt: HostRuntime) -> anyhow::Result<()> {
    for line in rt.lines(rt.alloc()) {
        let line = line?;
        match line.as_str().parse::<u32>() {
            Ok(count) => println!(rt; "{}", labels_of_many(rt.alloc(), count)?)?,
            Err(_) => print_cases(&rt)?,
        }
    }
    Ok(())
}

/// How many labels a function has whose text holds so many checks.
fn labels_of_many(alloc: Global, count: u32) -> Result<usize, NoMemory> {
    let mut names = Names::new(alloc);
    let core = many(alloc, &mut names, count)?;
    Ok(labels(alloc, &core, FuncId::Function(0))?.len())
}

fn print_cases(rt: &HostRuntime) -> Result<(), Error> {
    for plan in &rows::ROWS {
        print_contract(rt, plan)?;
    }
    order::print_order(rt)?;
    nested::print_types(rt)
}

/// Prints each function of a contract with its labels, and whether a copy has the same.
fn print_contract(rt: &HostRuntime, plan: &Plan<'_>) -> Result<(), Error> {
    let mut names = Names::new(rt.alloc());
    let core = built(rt.alloc(), &mut names, plan)?;
    print_with_copy(rt, &names, &core)
}

fn print_with_copy(rt: &HostRuntime, names: &Names, core: &Core) -> Result<(), Error> {
    let copy = copy_core(rt.alloc(), core)?;
    print_functions(rt, names, core, &copy)
}

fn print_functions(rt: &HostRuntime, names: &Names, core: &Core, copy: &Core) -> Result<(), Error> {
    print_function(rt, names, core, copy, FuncId::Constructor)?;
    for k in 0..u32::try_from(core.funcs.len()).unwrap_or(0) {
        print_function(rt, names, core, copy, FuncId::Function(k))?;
    }
    print_function(rt, names, core, copy, FuncId::Gift)
}

fn print_function(
    rt: &HostRuntime,
    names: &Names,
    core: &Core,
    copy: &Core,
    f: FuncId,
) -> Result<(), Error> {
    if !is_named(core, names, f) {
        return Ok(());
    }
    let title = func_text(rt.alloc(), core, names, f)?;
    let found = labels(rt.alloc(), core, f)?;
    let again = labels(rt.alloc(), copy, f)? == found;
    println!(rt;
        "{} {} {}",
        String::from_utf8_lossy(rt.alloc(), &title)?,
        found.len(),
        again
    )?;
    for label in &found {
        if (label.of.position() as usize) < names.len() {
            let text = label_text(rt.alloc(), names, label)?;
            println!(rt; "  {}", String::from_utf8_lossy(rt.alloc(), &text)?)?;
        }
    }
    Ok(())
}
