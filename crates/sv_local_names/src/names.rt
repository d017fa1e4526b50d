//! Locals by name, scope by scope.
#![tactic(auto)]

ghost use Rattle.std.specs.Prelude.{◌≡◌, OnOk, OnErr};
ghost use Rattle.sv_local_names.specs.LocalScopes.{no_locals, entered, left, declared, found, is_taken, last_named, start_of, in_scope};

use std::alloc::Global;
use std::marker::Model;
use sv_text::{Name, NoMemory};

/// A parameter, a result or a variable of a function that has a name.
#[derive(Clone, Copy, Debug, PartialEq, Eq)]
pub struct Local {
    pub name: Name,
    /// How many locals of the function stand before it, those without a name too.
    pub number: u32,
    pub is_result: bool,
}

/// The locals in scope. A contract sees them in order of the text, and where each open scope begins.
#[derive(Drop)]
pub struct LocalNames {
    names: Vec<Local>,
    starts: Vec<usize>,
    count: u32,
}

impl Model for LocalNames {
    ghost use Rattle.sv_local_names.specs.LocalScopes.{Locals, locals};

    ghost Value = { Locals };

    ghost view = { λ n. locals n.names.items n.starts.items n.count };
}

/// The last local of a name.
fn last_named(list: &[Local], name: Name) -> Option<Local>
    ensures { result ≡ last_named name list.now }
{
    let mut last = None;
    for l in list {
        if l.name.position() == name.position() {
            last = Some(*l);
        }
    }
    last
}

impl LocalNames {
    /// Those of a function of which nothing was read.
    pub fn new(alloc: Global) -> LocalNames
        ensures { result ≡ no_locals }
    {
        LocalNames {
            names: Vec::new(alloc),
            starts: Vec::new(alloc),
            count: 0,
        }
    }

    /// Where the innermost scope begins.
    fn start(&self) -> usize
        ensures { result ≡ start_of self.now }
    {
        match self.starts.as_slice().last() {
            None => 0,
            Some(start) => *start,
        }
    }

    /// How many locals the function had so far, those without a name too.
    pub fn count(&self) -> u32
        ensures { result ≡ self.now.count }
    {
        self.count
    }

    /// Enters a scope.
    pub fn enter(&mut self) -> Result<(), NoMemory>
        ensures ok { OnOk result (self.new ≡ entered self.old) }
        ensures err { OnErr result (self.new ≡ self.old) }
    {
        self.starts.push(self.names.len())?;
        Ok(())
    }

    /// Leaves the innermost scope. Its names are gone; where no scope is open, all names are.
    pub fn leave(&mut self)
        ensures { self.new ≡ left self.old }
    {
        let start = self.start();
        self.names.truncate(start);
        self.starts.pop();
    }

    /// Declares a local in the innermost scope. One without a name is counted.
    pub fn declare(&mut self, name: Option<Name>, is_result: bool) -> Result<(), NoMemory>
        ensures ok { OnOk result (self.new ≡ declared name is_result self.old) }
        ensures err { OnErr result (self.new ≡ self.old) }
    {
        let number = self.count;
        let count = number.checked_add(1).ok_or(NoMemory)?;
        if let Some(name) = name {
            self.names.push(Local {
                name,
                number,
                is_result,
            })?;
        }
        self.count = count;
        Ok(())
    }

    /// What a name means among the locals in scope.
    pub fn find(&self, name: Name) -> Option<Local>
        ensures { result ≡ found name self.now }
    {
        last_named(self.names.as_slice(), name)
    }

    /// The names of the innermost scope.
    fn in_scope(&self) -> &[Local]
        ensures { result.now ≡ in_scope self.now }
    {
        match self.names.as_slice().get(self.start()..) {
            None => &[],
            Some(names) => names,
        }
    }

    /// Whether the innermost scope has a local of the name.
    pub fn is_taken(&self, name: Name) -> bool
        ensures { result ≡ is_taken name self.now }
    {
        last_named(self.in_scope(), name).is_some()
    }
}
