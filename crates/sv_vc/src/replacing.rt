ghost use Rattle.std.specs.Prelude.{◌≡◌, ◌≤◌, ◌+◌, IfOk, length, nat_eq, None};
ghost use Rattle.indexmap.specs.IndexMap.{get};
ghost use Rattle.sv_term.specs.Banks.{IsTerm, AreTerms, Keeps, Stands, term, term_list};
ghost use Rattle.sv_vc.specs.Replacing.{replaced as replaced_in};
ghost use Rattle.sv_vc.specs.OpenTerms.{IsOpen, MayReplace, Replaces, ReplacesArgs};

use crate::nodes::{added, args_of, value_of, variable_of, with_args};
use indexmap::IndexMap;
use sqlite_items::Items;
use std::alloc::Global;
use sv_term::{Bank, TermId};
use sv_text::NoMemory;

/// The term with each variable replaced by what it stands for in `env`. Each node of it is read once, not once for each way to it.
pub fn replaced(
    alloc: Global,
    bank: &mut Bank,
    env: &[TermId],
    t: TermId,
) -> Result<TermId, NoMemory>
    requires within { IsTerm bank.old t }
    requires env { AreTerms bank.old env.now }
    requires over { IsOpen (term bank.old t) (term_list bank.old env.now) }
    ensures kept { Keeps bank.old bank.new }
    ensures stands { IfOk result (λ k. Stands bank.new k (replaced_in (term bank.old t) (term_list bank.old env.now))) }
    ensures size { IfOk result (λ k. length bank.new.nodes ≤ length bank.old.nodes + (t.0 + 1)) }
{
    let mut memo = IndexMap::new(alloc);
    Ok(replace(alloc, bank, env, &mut memo, t)?)
}

#[cycle(replace)]
fn replace(
    alloc: Global,
    bank: &mut Bank,
    env: &[TermId],
    memo: &mut IndexMap<usize, TermId>,
    t: TermId,
) -> Result<TermId, NoMemory>
    requires { MayReplace bank.old env.now (get nat_eq memo.old) t }
    ensures { Replaces bank.old env.now (get nat_eq memo.old) t (t.0 + 1) 0
        result bank.new (get nat_eq memo.new) }
{
    if let Some(known) = memo.get(&t.0) {
        return Ok(*known);
    }
    let now = replace_node(alloc, bank, env, memo, t)?;
    memo.insert(t.0, now)?;
    Ok(now)
}

#[cycle(replace)]
fn replace_node(
    alloc: Global,
    bank: &mut Bank,
    env: &[TermId],
    memo: &mut IndexMap<usize, TermId>,
    t: TermId,
) -> Result<TermId, NoMemory>
    requires { MayReplace bank.old env.now (get nat_eq memo.old) t }
    ensures { Replaces bank.old env.now (get nat_eq memo.old) t t.0 1
        result bank.new (get nat_eq memo.new) }
{
    if let Some(x) = variable_of(bank.node_of(t)) {
        return Ok(value_of(env, x));
    }
    let args = replace_args(alloc, bank, env, memo, t)?;
    let node = with_args(alloc, bank.node_of(t), args.as_slice())?;
    bank.is_sound();
    Ok(added(bank, node)?)
}

#[cycle(replace)]
fn replace_args(
    alloc: Global,
    bank: &mut Bank,
    env: &[TermId],
    memo: &mut IndexMap<usize, TermId>,
    t: TermId,
) -> Result<Items<TermId>, NoMemory>
    requires { MayReplace bank.old env.now (get nat_eq memo.old) t }
    ensures { ReplacesArgs bank.old env.now (get nat_eq memo.old) t
        result bank.new (get nat_eq memo.new) }
{
    let args = args_of(alloc, bank.node_of(t))?;
    let mut list = Items::new(alloc);
    for arg in args.as_slice() {
        list.push(replace(alloc, bank, env, memo, *arg)?)?;
    }
    Ok(list)
}
