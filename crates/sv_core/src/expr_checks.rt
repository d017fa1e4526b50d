#![tactic(auto, using(crate::proofs::Walked::walks))]

ghost use Rattle.std.specs.Prelude.{◌≡◌, OnOk, map};
ghost use Rattle.sv_core.specs.CheckWalk.{after_expr, after_all};
ghost use Rattle.sv_core.specs.CodeWalk.{with_kind, with_maybe};
ghost use Rattle.sv_core.specs.PlainCode.{plain_expr, exprs};

use crate::expr::{CExpr, CKind};
use crate::label::{Label, Site};
use crate::tally::{Tally, push_numbered};
use sqlite_items::{Boxed, Items};
use sv_text::{NoMemory, Place};

/// Adds the checks of an expression.
#[cycle(expr_checks)]
pub fn push_expr(tally: &Tally, e: &CExpr, found: &mut Vec<Label>) -> Result<(), NoMemory>
    ensures { OnOk result (found.new.items ≡ after_expr tally.now (plain_expr e.now) found.old.items) }
{
    push_kind(tally, e.place, &e.kind, found)
}

/// Adds the checks of expressions in order.
#[cycle(expr_checks)]
pub fn push_exprs(tally: &Tally, es: &Items<CExpr>, found: &mut Vec<Label>) -> Result<(), NoMemory>
    ensures { OnOk result (found.new.items ≡ after_all tally.now (exprs (map plain_expr es.now)) found.old.items) }
{
    for e in es.as_slice() {
        push_expr(tally, e, found)?;
    }
    Ok(())
}

#[cycle(expr_checks)]
fn push_maybe(
    tally: &Tally,
    e: &Option<Boxed<CExpr>>,
    found: &mut Vec<Label>,
) -> Result<(), NoMemory>
    ensures { OnOk result (found.new.items ≡ with_maybe tally.now e.now found.old.items) }
{
    match e {
        None => Ok(()),
        Some(e) => push_expr(tally, e.get(), found),
    }
}

#[cycle(expr_checks)]
fn push_kind(
    tally: &Tally,
    place: Place,
    kind: &CKind,
    found: &mut Vec<Label>,
) -> Result<(), NoMemory>
    ensures { OnOk result (found.new.items ≡ with_kind tally.now place kind.now found.old.items) }
{
    match kind {
        CKind::Num(_, _) => Ok(()),
        CKind::Truth(_) => Ok(()),
        CKind::Local(_) => Ok(()),
        CKind::State(_) => Ok(()),
        CKind::Env(_) => Ok(()),
        CKind::Limit(_) => Ok(()),
        CKind::Sum(_) => Ok(()),
        CKind::Field(a, _) => push_expr(tally, a.get(), found),
        CKind::Length(a) => push_expr(tally, a.get(), found),
        CKind::Unary(_, a) => push_expr(tally, a.get(), found),
        CKind::Convert(a) => push_expr(tally, a.get(), found),
        CKind::Pop(a) => push_expr(tally, a.get(), found),
        CKind::NewArray(a) => push_expr(tally, a.get(), found),
        CKind::Copy(_, a) => push_expr(tally, a.get(), found),
        CKind::Old(a) => push_expr(tally, a.get(), found),
        CKind::Index(a, i) => {
            push_expr(tally, a.get(), found)?;
            push_expr(tally, i.get(), found)
        }
        CKind::Binary(_, a, b) => {
            push_expr(tally, a.get(), found)?;
            push_expr(tally, b.get(), found)
        }
        CKind::Cond(c, a, b) => {
            push_expr(tally, c.get(), found)?;
            push_expr(tally, a.get(), found)?;
            push_expr(tally, b.get(), found)
        }
        CKind::Call(f, args) => {
            tally.push_call(found, place, *f)?;
            push_exprs(tally, args, found)
        }
        CKind::Outside(_, target, value, args, _) => {
            push_numbered(found, Site::At(place), 3, tally.name, tally.invariants)?;
            push_expr(tally, target.get(), found)?;
            push_maybe(tally, value, found)?;
            push_exprs(tally, args, found)
        }
        CKind::Push(a, value) => {
            push_expr(tally, a.get(), found)?;
            push_maybe(tally, value, found)
        }
        CKind::Make(fields) => push_exprs(tally, fields, found),
    }
}
