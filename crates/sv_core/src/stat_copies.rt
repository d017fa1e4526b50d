ghost use Rattle.std.specs.Prelude.{◌≡◌, IfOk};
ghost use Rattle.sv_core.specs.declared.stat.StatKind.TheVariants.{Set, Update, Many, Loop};

use crate::copies::{copy_expr, copy_exprs};
use crate::expr::{CExpr, Op};
use crate::stat::{Arm, Stat, StatKind};
use sqlite_items::Items;
use std::alloc::Global;
use sv_text::NoMemory;

/// An equal statement.
#[cycle(copy_stat)]
pub fn copy_stat(alloc: Global, s: &Stat) -> Result<Stat, NoMemory>
    ensures { IfOk result (λ r. r ≡ s.now) }
{
    Ok(Stat {
        no: s.no,
        place: s.place,
        kind: copy_act(alloc, &s.kind)?,
    })
}

/// Equal statements.
#[cycle(copy_stat)]
pub fn copy_body(alloc: Global, body: &Items<Stat>) -> Result<Items<Stat>, NoMemory>
    ensures { IfOk result (λ r. r ≡ body.now) }
{
    let mut copies = Items::new(alloc);
    for s in body.as_slice() {
        copies.push(copy_stat(alloc, s)?)?;
    }
    Ok(copies)
}

#[cycle(copy_stat)]
fn copy_arm(alloc: Global, arm: &Arm) -> Result<Arm, NoMemory>
    ensures { IfOk result (λ r. r ≡ arm.now) }
{
    let body = copy_body(alloc, &arm.body)?;
    let test = copy_expr(alloc, &arm.test)?;
    Ok(Arm { test, body })
}

#[cycle(copy_stat)]
fn copy_arms(alloc: Global, arms: &Items<Arm>) -> Result<Items<Arm>, NoMemory>
    ensures { IfOk result (λ r. r ≡ arms.now) }
{
    let mut copies = Items::new(alloc);
    for arm in arms.as_slice() {
        copies.push(copy_arm(alloc, arm)?)?;
    }
    Ok(copies)
}

#[cycle(copy_stat)]
fn copy_act(alloc: Global, kind: &StatKind) -> Result<StatKind, NoMemory>
    ensures { IfOk result (λ r. r ≡ kind.now) }
{
    match kind {
        StatKind::Set(target, value) => copy_set(alloc, target, value),
        StatKind::Update(target, op, value) => copy_update(alloc, target, *op, value),
        StatKind::Delete(e) => Ok(StatKind::Delete(copy_expr(alloc, e)?)),
        StatKind::Do(e) => Ok(StatKind::Do(copy_expr(alloc, e)?)),
        StatKind::Many(slots, e) => copy_many(alloc, slots, e),
        StatKind::If(arms, otherwise) => Ok(StatKind::If(
            copy_arms(alloc, arms)?,
            copy_body(alloc, otherwise)?,
        )),
        StatKind::Loop(notes, test, body, update) => copy_loop(
            alloc,
            notes,
            test,
            copy_body(alloc, body)?,
            copy_body(alloc, update)?,
        ),
        StatKind::Break => Ok(StatKind::Break),
        StatKind::Continue => Ok(StatKind::Continue),
        StatKind::Return(values) => Ok(StatKind::Return(copy_exprs(alloc, values)?)),
        StatKind::Require(e) => Ok(StatKind::Require(copy_expr(alloc, e)?)),
        StatKind::Assert(e) => Ok(StatKind::Assert(copy_expr(alloc, e)?)),
        StatKind::Revert(values) => Ok(StatKind::Revert(copy_exprs(alloc, values)?)),
        StatKind::Emit(values) => Ok(StatKind::Emit(copy_exprs(alloc, values)?)),
        StatKind::Rest => Ok(StatKind::Rest),
        StatKind::Frame(body) => Ok(StatKind::Frame(copy_body(alloc, body)?)),
    }
}

fn copy_set(alloc: Global, target: &CExpr, value: &CExpr) -> Result<StatKind, NoMemory>
    ensures { IfOk result (λ r. r ≡ Set target.now value.now) }
{
    Ok(StatKind::Set(copy_expr(alloc, target)?, copy_expr(alloc, value)?))
}

fn copy_update(alloc: Global, target: &CExpr, op: Op, value: &CExpr) -> Result<StatKind, NoMemory>
    ensures { IfOk result (λ r. r ≡ Update target.now op value.now) }
{
    Ok(StatKind::Update(copy_expr(alloc, target)?, op, copy_expr(alloc, value)?))
}

fn copy_many(alloc: Global, slots: &Items<Option<u32>>, e: &CExpr) -> Result<StatKind, NoMemory>
    ensures { IfOk result (λ r. r ≡ Many slots.now e.now) }
{
    Ok(StatKind::Many(
        Items::from_slice(alloc, slots.as_slice())?,
        copy_expr(alloc, e)?,
    ))
}

/// The copy of a loop whose bodies are copied.
fn copy_loop(
    alloc: Global,
    notes: &Items<CExpr>,
    test: &CExpr,
    body: Items<Stat>,
    update: Items<Stat>,
) -> Result<StatKind, NoMemory>
    ensures { IfOk result (λ r. r ≡ Loop notes.now test.now body update) }
{
    let notes = copy_exprs(alloc, notes)?;
    Ok(StatKind::Loop(notes, copy_expr(alloc, test)?, body, update))
}
