#![tactic(auto, using(crate::proofs::Walked::walks))]

ghost use Rattle.std.specs.Prelude.{◌≡◌, OnOk, map};
ghost use Rattle.sv_core.specs.CheckWalk.{after_body};
ghost use Rattle.sv_core.specs.CodeWalk.{with_stat, with_act, with_arm, with_arms};
ghost use Rattle.sv_core.specs.PlainCode.{plain_stat, stmts};

use crate::expr_checks::{push_expr, push_exprs};
use crate::label::{Label, Site};
use crate::stat::{Arm, Stat, StatKind};
use crate::tally::{Tally, count};
use sqlite_items::Items;
use sv_text::{NoMemory, Place};

#[cycle(stat_checks)]
fn push_stat(tally: &Tally, s: &Stat, found: &mut Vec<Label>) -> Result<(), NoMemory>
    ensures { OnOk result (found.new.items ≡ with_stat tally.now s.now found.old.items) }
{
    push_act(tally, s.place, &s.kind, found)
}

/// Adds the checks of statements in order.
#[cycle(stat_checks)]
pub fn push_body(tally: &Tally, body: &Items<Stat>, found: &mut Vec<Label>) -> Result<(), NoMemory>
    ensures { OnOk result (found.new.items ≡ after_body tally.now (stmts (map plain_stat body.now)) found.old.items) }
{
    for s in body.as_slice() {
        push_stat(tally, s, found)?;
    }
    Ok(())
}

#[cycle(stat_checks)]
fn push_arm(tally: &Tally, arm: &Arm, found: &mut Vec<Label>) -> Result<(), NoMemory>
    ensures { OnOk result (found.new.items ≡ with_arm tally.now arm.now found.old.items) }
{
    push_expr(tally, &arm.test, found)?;
    push_body(tally, &arm.body, found)
}

#[cycle(stat_checks)]
fn push_arms(tally: &Tally, list: &Items<Arm>, found: &mut Vec<Label>) -> Result<(), NoMemory>
    ensures { OnOk result (found.new.items ≡ with_arms tally.now list.now found.old.items) }
{
    for arm in list.as_slice() {
        push_arm(tally, arm, found)?;
    }
    Ok(())
}

#[cycle(stat_checks)]
fn push_act(
    tally: &Tally,
    place: Place,
    kind: &StatKind,
    found: &mut Vec<Label>,
) -> Result<(), NoMemory>
    ensures { OnOk result (found.new.items ≡ with_act tally.now place kind.now found.old.items) }
{
    match kind {
        StatKind::Set(target, value) => {
            push_expr(tally, target, found)?;
            push_expr(tally, value, found)
        }
        StatKind::Update(target, _, value) => {
            push_expr(tally, target, found)?;
            push_expr(tally, value, found)
        }
        StatKind::Delete(e) => push_expr(tally, e, found),
        StatKind::Do(e) => push_expr(tally, e, found),
        StatKind::Many(_, e) => push_expr(tally, e, found),
        StatKind::If(list, otherwise) => {
            push_arms(tally, list, found)?;
            push_body(tally, otherwise, found)
        }
        StatKind::Loop(notes, test, body, update) => {
            tally.push_loop(place, count(notes.len())?, found)?;
            push_expr(tally, test, found)?;
            push_body(tally, body, found)?;
            push_body(tally, update, found)
        }
        StatKind::Break => Ok(()),
        StatKind::Continue => Ok(()),
        StatKind::Rest => Ok(()),
        StatKind::Return(values) => push_exprs(tally, values, found),
        StatKind::Revert(values) => push_exprs(tally, values, found),
        StatKind::Emit(values) => push_exprs(tally, values, found),
        StatKind::Require(e) => push_expr(tally, e, found),
        StatKind::Assert(e) => {
            found.push(Label {
                site: Site::At(place),
                kind: 4,
                number: 0,
                of: tally.name,
            })?;
            push_expr(tally, e, found)
        }
        StatKind::Frame(body) => push_body(tally, body, found),
    }
}
