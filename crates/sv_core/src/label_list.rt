#![tactic(auto, using(crate::proofs::Walked::walks))]

ghost use Rattle.std.specs.Prelude.{◌≡◌, ◌++◌, IfOk, OnOk};
ghost use Rattle.sv_core.specs.CodeWalk.{with_mod, with_use, with_ends, with_text, with_function, with_given, with_ctors, with_checks};
ghost use Rattle.sv_core.specs.Checks.{AreLabels, checks_of, invariants_at_end};
ghost use Rattle.sv_core.specs.PlainCore.{plain_core};

use crate::contract::{BaseArgs, Core, CtorInfo, FuncInfo, ModInfo, ModUse};
use crate::expr_checks::push_exprs;
use crate::label::{FuncId, Label, Site};
use crate::stat_checks::push_body;
use crate::tally::{Tally, count, push_numbered};
use sqlite_items::Items;
use std::alloc::Global;
use sv_text::NoMemory;

/// The labels of a function: each check that the text of the function and of its modifiers holds, once, by place, kind and number.
pub fn labels(alloc: Global, core: &Core, f: FuncId) -> Result<Vec<Label>, NoMemory>
    ensures { IfOk result (λ list. AreLabels (plain_core core.now) f list.items) }
{
    let mut found = checks(alloc, core, f)?;
    found.sort_unstable();
    found.dedup();
    Ok(found)
}

/// The checks of a function, as often as they stand in its text.
fn checks(alloc: Global, core: &Core, f: FuncId) -> Result<Vec<Label>, NoMemory>
    ensures { IfOk result (λ list. list.items ≡ checks_of (plain_core core.now) f) }
{
    let tally = Tally::of(alloc, core)?;
    let mut found = Vec::new(alloc);
    push_checks(&tally, core, f, &mut found)?;
    Ok(found)
}

fn push_checks(
    tally: &Tally,
    core: &Core,
    f: FuncId,
    found: &mut Vec<Label>,
) -> Result<(), NoMemory>
    ensures { OnOk result (found.new.items ≡ with_checks tally.now core.now f found.old.items) }
{
    match f {
        FuncId::Constructor => {
            push_ctors(tally, &core.ctors, found)?;
            tally.push_end(found)
        }
        FuncId::Function(k) => push_function(tally, core, k, found),
        FuncId::Gift => tally.push_end(found),
    }
}

impl Tally {
    /// Adds the invariants at the end.
    fn push_end(&self, found: &mut Vec<Label>) -> Result<(), NoMemory>
        ensures { OnOk result (found.new.items ≡ found.old.items ++ invariants_at_end self.now) }
    {
        push_numbered(found, Site::End, 7, self.name, self.invariants)
    }
}

fn push_modifier(
    tally: &Tally,
    mods: &Items<ModInfo>,
    which: u32,
    found: &mut Vec<Label>,
) -> Result<(), NoMemory>
    ensures { OnOk result (found.new.items ≡ with_mod tally.now mods.now which found.old.items) }
{
    let Some(modifier) = mods.get(which as usize) else {
        return Ok(());
    };
    push_body(tally, &modifier.body, found)
}

fn push_uses(
    tally: &Tally,
    mods: &Items<ModInfo>,
    uses: &Items<ModUse>,
    found: &mut Vec<Label>,
) -> Result<(), NoMemory>
    ensures { OnOk result (found.new.items ≡ with_use tally.now mods.now uses.now found.old.items) }
{
    for u in uses.as_slice() {
        push_exprs(tally, &u.args, found)?;
        push_modifier(tally, mods, u.which, found)?;
    }
    Ok(())
}

fn push_ends(tally: &Tally, f: &FuncInfo, found: &mut Vec<Label>) -> Result<(), NoMemory>
    ensures { OnOk result (found.new.items ≡ with_ends tally.now f.now found.old.items) }
{
    let post = count(f.post.len())?;
    if f.public {
        tally.push_end(found)?;
        return push_numbered(found, Site::End, 8, tally.name, post);
    }
    push_numbered(found, Site::End, 8, tally.name, post)
}

fn push_text(
    tally: &Tally,
    mods: &Items<ModInfo>,
    f: &FuncInfo,
    found: &mut Vec<Label>,
) -> Result<(), NoMemory>
    ensures { OnOk result (found.new.items ≡ with_text tally.now mods.now f.now found.old.items) }
{
    push_uses(tally, mods, &f.uses, found)?;
    push_body(tally, &f.body, found)?;
    push_ends(tally, f, found)
}

fn push_function(tally: &Tally, core: &Core, k: u32, found: &mut Vec<Label>) -> Result<(), NoMemory>
    ensures { OnOk result (found.new.items ≡ with_function tally.now core.now k found.old.items) }
{
    let Some(f) = core.funcs.get(k as usize) else {
        return Ok(());
    };
    push_text(tally, &core.mods, f, found)
}

fn push_given(
    tally: &Tally,
    given: &Items<BaseArgs>,
    found: &mut Vec<Label>,
) -> Result<(), NoMemory>
    ensures { OnOk result (found.new.items ≡ with_given tally.now given.now found.old.items) }
{
    for g in given.as_slice() {
        push_exprs(tally, &g.args, found)?;
    }
    Ok(())
}

fn push_ctors(
    tally: &Tally,
    ctors: &Items<CtorInfo>,
    found: &mut Vec<Label>,
) -> Result<(), NoMemory>
    ensures { OnOk result (found.new.items ≡ with_ctors tally.now ctors.now found.old.items) }
{
    for k in ctors.as_slice() {
        push_given(tally, &k.base_args, found)?;
        push_body(tally, &k.body, found)?;
    }
    Ok(())
}
