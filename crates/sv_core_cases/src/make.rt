use crate::plan::{Act, FuncPlan, Plan};
use sqlite_items::{Boxed, Items};
use std::alloc::Global;
use sv_core::{
    CExpr, CKind, Core, CtorInfo, EnvName, FuncInfo, ModInfo, ModUse, OutKind, Stat, StatKind,
};
use sv_text::{Name, Names, NoMemory, Place};
use sv_type::{TypeNo, Types};

/// The name of a text.
fn name(names: &mut Names, text: &str) -> Result<Name, NoMemory> {
    if names.len() >= 1000 {
        return Err(NoMemory);
    }
    names.intern(text.as_bytes())
}

fn node(place: Place, kind: CKind) -> CExpr {
    CExpr {
        place,
        t: TypeNo::at(0),
        kind,
    }
}

/// As many annotations.
fn notes(alloc: Global, n: usize) -> Result<Items<CExpr>, NoMemory> {
    let mut list = Items::new(alloc);
    for _ in 0..n {
        list.push(node(Place { line: 1, col: 1 }, CKind::Truth(true)))?;
    }
    Ok(list)
}

/// `payable(msg.sender).transfer(msg.value)`.
fn send(alloc: Global, place: Place) -> Result<CExpr, NoMemory> {
    let target = Boxed::new(alloc, node(place, CKind::Env(EnvName::Sender)))?;
    let value = Boxed::new(alloc, node(place, CKind::Env(EnvName::Value)))?;
    Ok(node(
        place,
        CKind::Outside(
            OutKind::Transfer,
            target,
            Some(value),
            Items::new(alloc),
            Items::new(alloc),
        ),
    ))
}

fn place_of(act: Act) -> Place {
    let (line, col) = match act {
        Act::Call(line, col, _) => (line, col),
        Act::Send(line, col) => (line, col),
        Act::Assert(line, col) => (line, col),
        Act::Loop(line, col, _) => (line, col),
        Act::Rest => (1, 1),
    };
    Place { line, col }
}

fn kind(alloc: Global, act: Act, place: Place) -> Result<StatKind, NoMemory> {
    match act {
        Act::Call(_, _, f) => Ok(StatKind::Do(node(place, CKind::Call(f, Items::new(alloc))))),
        Act::Send(_, _) => Ok(StatKind::Do(send(alloc, place)?)),
        Act::Assert(_, _) => Ok(StatKind::Assert(node(place, CKind::Truth(true)))),
        Act::Loop(_, _, n) => Ok(StatKind::Loop(
            notes(alloc, n)?,
            node(place, CKind::Truth(true)),
            Items::new(alloc),
            Items::new(alloc),
        )),
        Act::Rest => Ok(StatKind::Rest),
    }
}

fn stat(alloc: Global, act: Act) -> Result<Stat, NoMemory> {
    let place = place_of(act);
    Ok(Stat {
        no: 1,
        place,
        kind: kind(alloc, act, place)?,
    })
}

fn body(alloc: Global, acts: &[Act]) -> Result<Items<Stat>, NoMemory> {
    let mut list = Items::new(alloc);
    for act in acts {
        list.push(stat(alloc, *act)?)?;
    }
    Ok(list)
}

fn uses(alloc: Global, which: &[u32]) -> Result<Items<ModUse>, NoMemory> {
    let mut list = Items::new(alloc);
    for k in which {
        list.push(ModUse {
            which: *k,
            args: Items::new(alloc),
        })?;
    }
    Ok(list)
}

fn func(alloc: Global, names: &mut Names, plan: &FuncPlan<'_>) -> Result<FuncInfo, NoMemory> {
    Ok(FuncInfo {
        name: name(names, plan.name)?,
        owner: plan.owner,
        public: plan.public,
        payable: false,
        top: plan.top,
        locals: Items::new(alloc),
        params: 0,
        results: 0,
        uses: uses(alloc, plan.uses)?,
        pre: notes(alloc, plan.pre)?,
        post: notes(alloc, plan.post)?,
        body: body(alloc, plan.body)?,
    })
}

fn funcs(
    alloc: Global,
    names: &mut Names,
    plans: &[FuncPlan<'_>],
) -> Result<Items<FuncInfo>, NoMemory> {
    let mut list = Items::new(alloc);
    for plan in plans {
        list.push(func(alloc, names, plan)?)?;
    }
    Ok(list)
}

fn mods(alloc: Global, title: Name, bodies: &[&[Act]]) -> Result<Items<ModInfo>, NoMemory> {
    let mut list = Items::new(alloc);
    for acts in bodies {
        list.push(ModInfo {
            name: title,
            owner: 0,
            locals: Items::new(alloc),
            params: 0,
            body: body(alloc, acts)?,
        })?;
    }
    Ok(list)
}

fn owners(alloc: Global, names: &mut Names, texts: &[&str]) -> Result<Items<Name>, NoMemory> {
    let mut list = Items::new(alloc);
    for text in texts {
        list.push(name(names, text)?)?;
    }
    Ok(list)
}

/// A constructor with a body.
fn ctors(alloc: Global, acts: &[Act]) -> Result<Items<CtorInfo>, NoMemory> {
    let mut list = Items::new(alloc);
    list.push(CtorInfo {
        owner: 0,
        payable: false,
        locals: Items::new(alloc),
        params: 0,
        base_args: Items::new(alloc),
        body: body(alloc, acts)?,
    })?;
    Ok(list)
}

/// The contract of a plan.
pub fn built(alloc: Global, names: &mut Names, plan: &Plan<'_>) -> Result<Core, NoMemory> {
    let title = name(names, plan.name)?;
    Ok(Core {
        name: title,
        contract: 0,
        line: Items::from_slice(alloc, &[0])?,
        owners: owners(alloc, names, plan.owners)?,
        types: Types::of(Vec::new(alloc)),
        vars: Items::new(alloc),
        ctors: ctors(alloc, plan.ctor)?,
        funcs: funcs(alloc, names, plan.funcs)?,
        mods: mods(alloc, title, plan.mods)?,
        invariants: notes(alloc, plan.invariants)?,
    })
}

/// A contract with one function, whose text holds so many checks, with places from both ends of a text in turn.
pub fn many(alloc: Global, names: &mut Names, count: u32) -> Result<Core, NoMemory> {
    let mut acts = Vec::new(alloc);
    for k in 0..count {
        acts.push(if k % 2 == 0 {
            Act::Assert(k + 1, 9)
        } else {
            Act::Assert(count - k, 17)
        })?;
    }
    let plan = FuncPlan {
        name: "f",
        owner: 0,
        public: false,
        top: true,
        pre: 0,
        post: 0,
        uses: &[],
        body: acts.as_slice(),
    };
    built(
        alloc,
        names,
        &Plan {
            name: "C",
            owners: &["C"],
            invariants: 0,
            ctor: &[],
            mods: &[],
            funcs: &[plan],
        },
    )
}
