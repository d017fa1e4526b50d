ghost use Rattle.std.specs.Prelude.{◌≡◌, IfOk};
ghost use Rattle.sv_core.specs.declared.expr.CKind.TheVariants.{Index, Binary, Cond, Outside, Push};

use crate::expr::{CExpr, CKind, Op, OutKind};
use sqlite_items::{Boxed, Items};
use std::alloc::Global;
use sv_text::NoMemory;
use sv_type::TypeNo;

/// An equal expression.
#[cycle(copy_expr)]
pub fn copy_expr(alloc: Global, e: &CExpr) -> Result<CExpr, NoMemory>
    ensures { IfOk result (λ r. r ≡ e.now) }
{
    Ok(CExpr {
        place: e.place,
        t: e.t,
        kind: copy_kind(alloc, &e.kind)?,
    })
}

#[cycle(copy_expr)]
fn copy_boxed(alloc: Global, e: &Boxed<CExpr>) -> Result<Boxed<CExpr>, NoMemory>
    ensures { IfOk result (λ r. r ≡ e.now) }
{
    Ok(Boxed::new(alloc, copy_expr(alloc, e.get())?)?)
}

#[cycle(copy_expr)]
fn copy_value(alloc: Global, e: &Option<Boxed<CExpr>>) -> Result<Option<Boxed<CExpr>>, NoMemory>
    ensures { IfOk result (λ r. r ≡ e.now) }
{
    match e {
        None => Ok(None),
        Some(e) => Ok(Some(Boxed::new(alloc, copy_expr(alloc, e.get())?)?)),
    }
}

/// Equal expressions.
#[cycle(copy_expr)]
pub fn copy_exprs(alloc: Global, es: &Items<CExpr>) -> Result<Items<CExpr>, NoMemory>
    ensures { IfOk result (λ r. r ≡ es.now) }
{
    let mut copies = Items::new(alloc);
    for e in es.as_slice() {
        copies.push(copy_expr(alloc, e)?)?;
    }
    Ok(copies)
}

#[cycle(copy_expr)]
fn copy_kind(alloc: Global, kind: &CKind) -> Result<CKind, NoMemory>
    ensures { IfOk result (λ r. r ≡ kind.now) }
{
    match kind {
        CKind::Num(negative, magnitude) => Ok(CKind::Num(*negative, *magnitude)),
        CKind::Truth(b) => Ok(CKind::Truth(*b)),
        CKind::Local(k) => Ok(CKind::Local(*k)),
        CKind::State(k) => Ok(CKind::State(*k)),
        CKind::Env(name) => Ok(CKind::Env(*name)),
        CKind::Field(a, k) => Ok(CKind::Field(copy_boxed(alloc, a)?, *k)),
        CKind::Index(a, i) => copy_index(alloc, i, copy_boxed(alloc, a)?),
        CKind::Length(a) => Ok(CKind::Length(copy_boxed(alloc, a)?)),
        CKind::Unary(op, a) => Ok(CKind::Unary(*op, copy_boxed(alloc, a)?)),
        CKind::Binary(op, a, b) => copy_binary(alloc, b, *op, copy_boxed(alloc, a)?),
        CKind::Cond(c, a, b) => {
            copy_cond(alloc, b, copy_boxed(alloc, c)?, copy_boxed(alloc, a)?)
        }
        CKind::Convert(a) => Ok(CKind::Convert(copy_boxed(alloc, a)?)),
        CKind::Limit(greatest) => Ok(CKind::Limit(*greatest)),
        CKind::Call(f, args) => Ok(CKind::Call(*f, copy_exprs(alloc, args)?)),
        CKind::Outside(how, target, value, args, results) => copy_outside(
            alloc,
            args,
            results,
            *how,
            copy_boxed(alloc, target)?,
            copy_value(alloc, value)?,
        ),
        CKind::Push(a, value) => copy_push(alloc, value, copy_boxed(alloc, a)?),
        CKind::Pop(a) => Ok(CKind::Pop(copy_boxed(alloc, a)?)),
        CKind::Make(fields) => Ok(CKind::Make(copy_exprs(alloc, fields)?)),
        CKind::NewArray(n) => Ok(CKind::NewArray(copy_boxed(alloc, n)?)),
        CKind::Copy(to, a) => Ok(CKind::Copy(*to, copy_boxed(alloc, a)?)),
        CKind::Old(a) => Ok(CKind::Old(copy_boxed(alloc, a)?)),
        CKind::Sum(k) => Ok(CKind::Sum(*k)),
    }
}

// What is left to copy of a node stands first here, and its parts that are copied last.

#[cycle(copy_expr)]
fn copy_index(alloc: Global, i: &Boxed<CExpr>, a: Boxed<CExpr>) -> Result<CKind, NoMemory>
    ensures { IfOk result (λ r. r ≡ Index a i.now) }
{
    Ok(CKind::Index(a, copy_boxed(alloc, i)?))
}

#[cycle(copy_expr)]
fn copy_binary(alloc: Global, b: &Boxed<CExpr>, op: Op, a: Boxed<CExpr>) -> Result<CKind, NoMemory>
    ensures { IfOk result (λ r. r ≡ Binary op a b.now) }
{
    Ok(CKind::Binary(op, a, copy_boxed(alloc, b)?))
}

#[cycle(copy_expr)]
fn copy_cond(
    alloc: Global,
    b: &Boxed<CExpr>,
    c: Boxed<CExpr>,
    a: Boxed<CExpr>,
) -> Result<CKind, NoMemory>
    ensures { IfOk result (λ r. r ≡ Cond c a b.now) }
{
    Ok(CKind::Cond(c, a, copy_boxed(alloc, b)?))
}

#[cycle(copy_expr)]
fn copy_outside(
    alloc: Global,
    args: &Items<CExpr>,
    results: &Items<TypeNo>,
    how: OutKind,
    target: Boxed<CExpr>,
    value: Option<Boxed<CExpr>>,
) -> Result<CKind, NoMemory>
    ensures { IfOk result (λ r. r ≡ Outside how target value args.now results.now) }
{
    let results = Items::from_slice(alloc, results.as_slice())?;
    let args = copy_exprs(alloc, args)?;
    Ok(CKind::Outside(how, target, value, args, results))
}

#[cycle(copy_expr)]
fn copy_push(
    alloc: Global,
    value: &Option<Boxed<CExpr>>,
    a: Boxed<CExpr>,
) -> Result<CKind, NoMemory>
    ensures { IfOk result (λ r. r ≡ Push a value.now) }
{
    Ok(CKind::Push(a, copy_value(alloc, value)?))
}
