ghost use Rattle.std.specs.Prelude.{◌≡◌, IfOk};

use crate::contract::{BaseArgs, Core, CtorInfo, FuncInfo, ModInfo, ModUse, VarInfo};
use crate::copies::{copy_expr, copy_exprs};
use crate::expr::CExpr;
use crate::stat_copies::copy_body;
use sqlite_items::Items;
use std::alloc::Global;
use sv_text::NoMemory;
use sv_type::{TypeInfo, TypeNo, Types};

/// An equal contract.
pub fn copy_core(alloc: Global, core: &Core) -> Result<Core, NoMemory>
    ensures { IfOk result (λ r. r ≡ core.now) }
{
    Ok(Core {
        name: core.name,
        contract: core.contract,
        line: Items::from_slice(alloc, core.line.as_slice())?,
        owners: Items::from_slice(alloc, core.owners.as_slice())?,
        types: copy_types(alloc, &core.types)?,
        vars: copy_vars(alloc, &core.vars)?,
        ctors: copy_ctors(alloc, &core.ctors)?,
        funcs: copy_funcs(alloc, &core.funcs)?,
        mods: copy_mods(alloc, &core.mods)?,
        invariants: copy_exprs(alloc, &core.invariants)?,
    })
}

fn copy_info(alloc: Global, info: &TypeInfo) -> Result<TypeInfo, NoMemory>
    ensures { IfOk result (λ r. r ≡ info.now) }
{
    match info {
        TypeInfo::Uint(bits) => Ok(TypeInfo::Uint(*bits)),
        TypeInfo::Int(bits) => Ok(TypeInfo::Int(*bits)),
        TypeInfo::Bool => Ok(TypeInfo::Bool),
        TypeInfo::Address(payable) => Ok(TypeInfo::Address(*payable)),
        TypeInfo::Contract(number) => Ok(TypeInfo::Contract(*number)),
        TypeInfo::Enum(members) => Ok(TypeInfo::Enum(*members)),
        TypeInfo::Struct(fields) => Ok(TypeInfo::Struct(Items::from_slice(
            alloc,
            fields.as_slice(),
        )?)),
        TypeInfo::Fixed(element, len) => Ok(TypeInfo::Fixed(*element, *len)),
        TypeInfo::Dynamic(element) => Ok(TypeInfo::Dynamic(*element)),
        TypeInfo::Mapping(key, value) => Ok(TypeInfo::Mapping(*key, *value)),
    }
}

fn copy_types(alloc: Global, types: &Types) -> Result<Types, NoMemory>
    ensures { IfOk result (λ r. r ≡ types.now) }
{
    let mut infos = Vec::new(alloc);
    for k in 0..types.len() {
        infos.push(copy_info(alloc, types.get(TypeNo::at(k as u32)))?)?;
    }
    Ok(Types::of(infos))
}

fn copy_init(alloc: Global, init: &Option<CExpr>) -> Result<Option<CExpr>, NoMemory>
    ensures { IfOk result (λ r. r ≡ init.now) }
{
    match init {
        None => Ok(None),
        Some(e) => Ok(Some(copy_expr(alloc, e)?)),
    }
}

fn copy_vars(alloc: Global, vars: &Items<VarInfo>) -> Result<Items<VarInfo>, NoMemory>
    ensures { IfOk result (λ r. r ≡ vars.now) }
{
    let mut copies = Items::new(alloc);
    for v in vars.as_slice() {
        copies.push(VarInfo {
            name: v.name,
            owner: v.owner,
            t: v.t,
            kind: v.kind,
            init: copy_init(alloc, &v.init)?,
        })?;
    }
    Ok(copies)
}

fn copy_given(alloc: Global, given: &Items<BaseArgs>) -> Result<Items<BaseArgs>, NoMemory>
    ensures { IfOk result (λ r. r ≡ given.now) }
{
    let mut copies = Items::new(alloc);
    for g in given.as_slice() {
        copies.push(BaseArgs {
            base: g.base,
            args: copy_exprs(alloc, &g.args)?,
        })?;
    }
    Ok(copies)
}

fn copy_ctor(alloc: Global, k: &CtorInfo) -> Result<CtorInfo, NoMemory>
    ensures { IfOk result (λ r. r ≡ k.now) }
{
    Ok(CtorInfo {
        owner: k.owner,
        payable: k.payable,
        locals: Items::from_slice(alloc, k.locals.as_slice())?,
        params: k.params,
        base_args: copy_given(alloc, &k.base_args)?,
        body: copy_body(alloc, &k.body)?,
    })
}

fn copy_ctors(alloc: Global, ctors: &Items<CtorInfo>) -> Result<Items<CtorInfo>, NoMemory>
    ensures { IfOk result (λ r. r ≡ ctors.now) }
{
    let mut copies = Items::new(alloc);
    for k in ctors.as_slice() {
        copies.push(copy_ctor(alloc, k)?)?;
    }
    Ok(copies)
}

fn copy_uses(alloc: Global, uses: &Items<ModUse>) -> Result<Items<ModUse>, NoMemory>
    ensures { IfOk result (λ r. r ≡ uses.now) }
{
    let mut copies = Items::new(alloc);
    for u in uses.as_slice() {
        copies.push(ModUse {
            which: u.which,
            args: copy_exprs(alloc, &u.args)?,
        })?;
    }
    Ok(copies)
}

fn copy_func(alloc: Global, f: &FuncInfo) -> Result<FuncInfo, NoMemory>
    ensures { IfOk result (λ r. r ≡ f.now) }
{
    Ok(FuncInfo {
        name: f.name,
        owner: f.owner,
        public: f.public,
        payable: f.payable,
        top: f.top,
        locals: Items::from_slice(alloc, f.locals.as_slice())?,
        params: f.params,
        results: f.results,
        uses: copy_uses(alloc, &f.uses)?,
        pre: copy_exprs(alloc, &f.pre)?,
        post: copy_exprs(alloc, &f.post)?,
        body: copy_body(alloc, &f.body)?,
    })
}

fn copy_funcs(alloc: Global, funcs: &Items<FuncInfo>) -> Result<Items<FuncInfo>, NoMemory>
    ensures { IfOk result (λ r. r ≡ funcs.now) }
{
    let mut copies = Items::new(alloc);
    for f in funcs.as_slice() {
        copies.push(copy_func(alloc, f)?)?;
    }
    Ok(copies)
}

fn copy_mod(alloc: Global, m: &ModInfo) -> Result<ModInfo, NoMemory>
    ensures { IfOk result (λ r. r ≡ m.now) }
{
    Ok(ModInfo {
        name: m.name,
        owner: m.owner,
        locals: Items::from_slice(alloc, m.locals.as_slice())?,
        params: m.params,
        body: copy_body(alloc, &m.body)?,
    })
}

fn copy_mods(alloc: Global, mods: &Items<ModInfo>) -> Result<Items<ModInfo>, NoMemory>
    ensures { IfOk result (λ r. r ≡ mods.now) }
{
    let mut copies = Items::new(alloc);
    for m in mods.as_slice() {
        copies.push(copy_mod(alloc, m)?)?;
    }
    Ok(copies)
}
