ghost use Rattle.std.specs.Prelude.{◌≡◌, ◌++◌, ◌<◌, IfOk, OnOk, length};
ghost use Rattle.sv_core.specs.LabelTexts.{row_text, check_text, site_text, text_of_label, text_of_func, label_order, HasNames, HasFunctionNames, HasOwnerName};
ghost use Rattle.sv_core.specs.CodeWalk.{function_name, owner_name};
ghost use Rattle.sv_core.specs.PlainCore.{plain_core, plain_func};

use crate::contract::{Core, FuncInfo};
use crate::label::{FuncId, Label, Site};
use std::alloc::Global;
use std::cmp::Ordering;
use sv_text::{Names, NoMemory};

/// Compares labels by place, then kind, then number; those at the end come last.
pub fn compare(a: &Label, b: &Label) -> Ordering
    ensures { result ≡ label_order a.now b.now }
{
    a.site
        .cmp(&b.site)
        .then(a.kind.cmp(&b.kind).then(a.number.cmp(&b.number)))
}

/// The text of a label. A kind above 8 is written as 8.
pub fn label_text(alloc: Global, names: &Names, l: &Label) -> Result<Vec<u8>, NoMemory>
    requires { l.now.«of» < length names.now }
    ensures { IfOk result (λ text. text.items ≡ text_of_label names.now l.now) }
{
    let mut text = Vec::new(alloc);
    push_check(alloc, &mut text, l.kind, l.number, names.text(l.of))?;
    push_site(alloc, &mut text, l.site)?;
    Ok(text)
}

/// Adds a number between two texts, and a name behind them.
fn push_row(
    alloc: Global,
    to: &mut Vec<u8>,
    front: &[u8],
    n: u32,
    back: &[u8],
    name: &[u8],
) -> Result<(), NoMemory>
    ensures { OnOk result (to.new.items ≡ to.old.items ++ row_text front.now n back.now name.now) }
{
    let digits = format!(in alloc; "{n}")?;
    to.extend_from_slice(front)?;
    to.extend_from_slice(digits.as_bytes())?;
    to.extend_from_slice(back)?;
    to.extend_from_slice(name)?;
    Ok(())
}

fn push_check(
    alloc: Global,
    text: &mut Vec<u8>,
    kind: u8,
    number: u32,
    name: &[u8],
) -> Result<(), NoMemory>
    ensures { OnOk result (text.new.items ≡ text.old.items ++ check_text kind number name.now) }
{
    match kind {
        1 => push_row(alloc, text, b"precondition ", number, b" of ", name),
        2 => push_row(
            alloc,
            text,
            b"invariant ",
            number,
            b" before function ",
            name,
        ),
        3 => push_row(alloc, text, b"invariant ", number, b" before call", b""),
        4 => Ok(text.extend_from_slice(b"assert")?),
        5 => push_row(alloc, text, b"loop invariant ", number, b" on entry", b""),
        6 => push_row(alloc, text, b"loop invariant ", number, b" after turn", b""),
        7 => push_row(alloc, text, b"invariant ", number, b"", b""),
        _ => push_row(alloc, text, b"postcondition ", number, b"", b""),
    }
}

fn push_site(alloc: Global, text: &mut Vec<u8>, site: Site) -> Result<(), NoMemory>
    ensures { OnOk result (text.new.items ≡ text.old.items ++ site_text site) }
{
    match site {
        Site::At(place) => {
            let line = place.line;
            let col = place.col;
            let at = format!(in alloc; " at {line}:{col}")?;
            text.extend_from_slice(at.as_bytes())?;
            Ok(())
        }
        Site::End => {
            text.extend_from_slice(b" at end")?;
            Ok(())
        }
    }
}

/// The name on a function's line of the report. One of which another of its name is more derived is named with its contract.
pub fn func_text(alloc: Global, core: &Core, names: &Names, f: FuncId) -> Result<Vec<u8>, NoMemory>
    requires { HasNames names.now (plain_core core.now) f }
    ensures { IfOk result (λ text. text.items ≡ text_of_func names.now (plain_core core.now) f) }
{
    let mut text = Vec::new(alloc);
    match f {
        FuncId::Constructor => {
            text.extend_from_slice(names.text(core.name))?;
            text.extend_from_slice(b".constructor")?;
        }
        FuncId::Function(k) => {
            text.extend_from_slice(names.text(core.name))?;
            text.extend_from_slice(b".")?;
            push_function(core, names, k, &mut text)?;
        }
        FuncId::Gift => {
            text.extend_from_slice(names.text(core.name))?;
            text.extend_from_slice(b".(gift)")?;
        }
    }
    Ok(text)
}

/// Adds a function's name, behind that of its contract where another of its name is more derived.
fn push_function(core: &Core, names: &Names, k: u32, text: &mut Vec<u8>) -> Result<(), NoMemory>
    requires { HasFunctionNames names.now (plain_core core.now) k }
    ensures { OnOk result (text.new.items ≡ text.old.items ++ function_name names.now core.now k) }
{
    let Some(f) = core.funcs.get(k as usize) else {
        return Ok(());
    };
    push_definer(core, names, f, text)?;
    text.extend_from_slice(names.text(f.name))?;
    Ok(())
}

fn push_definer(
    core: &Core,
    names: &Names,
    f: &FuncInfo,
    text: &mut Vec<u8>,
) -> Result<(), NoMemory>
    requires { HasOwnerName names.now (plain_core core.now) (plain_func f.now) }
    ensures { OnOk result (text.new.items ≡ text.old.items ++ owner_name names.now core.now f.now) }
{
    if f.top {
        return Ok(());
    }
    let Some(owner) = core.owners.get(f.owner as usize) else {
        return Ok(());
    };
    text.extend_from_slice(names.text(*owner))?;
    text.extend_from_slice(b".")?;
    Ok(())
}
