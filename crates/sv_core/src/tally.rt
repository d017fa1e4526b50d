ghost use Rattle.std.specs.Prelude.{◌≡◌, ◌+◌, ◌++◌, IfOk, OnOk, length};
ghost use Rattle.sv_core.specs.Checks.{tally_of, callee_of, numbered, call_checks, loop_checks};
ghost use Rattle.sv_core.specs.PlainCore.{plain_core, plain_func};

use crate::contract::{Core, FuncInfo};
use crate::label::{Label, Site};
use sqlite_items::Items;
use std::alloc::Global;
use sv_text::{Name, NoMemory, Place};

/// What the checks of a call depend on.
#[derive(Clone, Copy, Debug)]
pub struct Callee {
    pub name: Name,
    /// How many preconditions it has.
    pub pre: u32,
    pub public: bool,
}

/// What the checks of a contract depend on.
#[derive(Drop)]
pub struct Tally {
    pub name: Name,
    /// How many invariants it has.
    pub invariants: u32,
    pub callees: Items<Callee>,
}

/// A length as a number of labels. So many labels as a `u32` can't count fit into no memory.
pub fn count(len: usize) -> Result<u32, NoMemory>
    ensures { IfOk result (λ n. n ≡ len) }
{
    if len > u32::MAX as usize {
        return Err(NoMemory);
    }
    Ok(len as u32)
}

impl Callee {
    fn of(f: &FuncInfo) -> Result<Callee, NoMemory>
        ensures { IfOk result (λ callee. callee ≡ callee_of (plain_func f.now)) }
    {
        let pre = count(f.pre.len())?;
        Ok(Callee {
            name: f.name,
            pre,
            public: f.public,
        })
    }
}

/// Adds a check for each annotation of a list.
pub fn push_numbered(
    found: &mut Vec<Label>,
    site: Site,
    kind: u8,
    name: Name,
    n: u32,
) -> Result<(), NoMemory>
    ensures { OnOk result (found.new.items ≡ found.old.items ++ numbered site kind name n) }
{
    for k in 0..n {
        found.push(Label {
            site,
            kind,
            number: k + 1,
            of: name,
        })?;
    }
    Ok(())
}

impl Tally {
    /// What the checks of a contract depend on.
    pub fn of(alloc: Global, core: &Core) -> Result<Tally, NoMemory>
        ensures { IfOk result (λ tally. tally ≡ tally_of (plain_core core.now)) }
    {
        let invariants = count(core.invariants.len())?;
        let mut callees = Items::new(alloc);
        for f in core.funcs.as_slice() {
            callees.push(Callee::of(f)?)?;
        }
        Ok(Tally {
            name: core.name,
            invariants,
            callees,
        })
    }

    /// Adds the checks of a call from inside.
    pub fn push_call(&self, found: &mut Vec<Label>, place: Place, f: u32) -> Result<(), NoMemory>
        ensures { OnOk result (found.new.items ≡ found.old.items ++ call_checks self.now place f) }
    {
        let Some(callee) = self.callees.get(f as usize) else {
            return Ok(());
        };
        push_numbered(found, Site::At(place), 1, callee.name, callee.pre)?;
        if callee.public {
            push_numbered(found, Site::At(place), 2, callee.name, self.invariants)?;
        }
        Ok(())
    }

    /// Adds the checks of the n invariants of a loop.
    pub fn push_loop(&self, place: Place, n: u32, found: &mut Vec<Label>) -> Result<(), NoMemory>
        ensures { OnOk result (found.new.items ≡ found.old.items ++ loop_checks self.now place n) }
    {
        push_numbered(found, Site::At(place), 5, self.name, n)?;
        push_numbered(found, Site::At(place), 6, self.name, n)
    }
}
