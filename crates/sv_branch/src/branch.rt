ghost use Rattle.std.specs.Prelude.{◌≡◌, ◌↔◌, ◌+◌, ◌<◌, ◌≤◌, [], true, false, length, take, IfOk, IsTrue};
ghost use Rattle.sv_log.specs.LogRows.{row};
ghost use Rattle.sv_row.specs.RowParts.{monomials};
ghost use Rattle.sv_force.specs.InForce.{FactOn, RowOf, force, parts_in};
ghost use Rattle.sv_branch.specs.OpenBranches.{standing, IsInFirstHalf, AreNested, with_held, opened, turned, open_around, shut};
ghost use Rattle.sv_branch.specs.Stacks.{stacked};

use std::alloc::Global;
use std::marker::Model;
use sv_force::InForce;
use sv_text::NoMemory;

#[derive(Clone, Copy)]
struct OpenSplit {
    term: usize,
    before: usize,
    second: bool,
}

/// A branch of a log: what is in force, the open splits, and whether the branch is closed.
/// A contract sees these by numbers, and for how many splits there is room.
#[derive(Drop)]
pub struct Branch {
    force: InForce,
    // the innermost last
    splits: Vec<OpenSplit>,
    room: usize,
    closed: bool,
}

impl Model for Branch {
    ghost use Rattle.std.specs.Prelude.{◌≤◌, length, vec_capacity};
    ghost use Rattle.sv_branch.specs.OpenBranches.{Standing, standing, AreNested};

    ghost Value = { Standing };

    ghost use Rattle.sv_branch.specs.Stacks.{stacked};

    ghost view = { λ b. standing b.force (stacked b.splits.items) b.room b.closed };

    ghost invariant = { λ b. AreNested (length b.force.items) (stacked b.splits.items) × (length b.force.items ≤ b.force.room)
        × (length b.splits.items ≤ b.room) × (b.room ≤ vec_capacity b.splits) };
}

impl Branch {
    /// Nothing in force, no split, and room for so many items, parts of rows and splits. It takes all memory that is ever needed.
    pub fn new(alloc: Global, items: usize, parts: usize, splits: usize) -> Result<Branch, NoMemory>
        ensures { IfOk result (λ b. b ≡ standing (force [] items parts) [] splits false) }
    {
        Ok(Branch {
            force: InForce::new(alloc, items, parts)?,
            splits: Vec::with_capacity(alloc, splits)?,
            room: splits,
            closed: false,
        })
    }

    /// What is in force.
    pub fn force(&self) -> &InForce
        ensures { result.now ≡ self.now.force }
    {
        &self.force
    }

    /// Whether the branch is closed.
    pub fn is_closed(&self) -> bool
        ensures { result ≡ self.now.closed }
    {
        self.closed
    }

    /// Whether the branch is closed and no split is open.
    pub fn is_done(&self) -> bool
        ensures { IsTrue result ↔ (self.now.closed ≡ true) × (self.now.splits ≡ []) }
    {
        self.closed && self.splits.is_empty()
    }

    /// Whether the innermost split is in its first half; false where no split is open.
    pub fn is_in_first_half(&self) -> bool
        ensures { IsTrue result ↔ IsInFirstHalf self.now.splits }
    {
        ends_in_first_half(&self.splits)
    }

    /// Whether there is room for one more split.
    pub fn has_split_room(&self) -> bool
        ensures { IsTrue result ↔ length self.now.splits < self.now.room }
    {
        self.splits.len() < self.room
    }

    /// Each split has more items before it than the one around it, and fewer than there are. It does nothing.
    pub fn is_nested(&self)
        ensures { AreNested (length self.now.force.items) self.now.splits }
    {
        let _ = &self.force;
    }

    /// Adds a fact.
    pub fn push_fact(&mut self, sign: bool, term: usize)
        requires { length self.old.force.items < self.old.force.room }
        ensures { self.new ≡ with_held (FactOn sign term) self.old }
    {
        self.force.push_fact(sign, term);
    }

    /// Adds a row.
    pub fn push_row(&mut self, constant: i128, parts: &[(i128, usize)])
        requires items { length self.old.force.items < self.old.force.room }
        requires parts { parts_in self.old.force.items + length parts.now ≤ self.old.force.parts_room }
        ensures { self.new ≡ with_held (RowOf (row constant (monomials parts.now))) self.old }
    {
        self.force.push_row(constant, parts);
    }

    /// Opens a split on a term, and adds the fact that the term is true.
    pub fn split(&mut self, term: usize)
        requires items { length self.old.force.items < self.old.force.room }
        requires splits { length self.old.splits < self.old.room }
        ensures { self.new ≡ opened term self.old }
    {
        self.splits
            .push(OpenSplit {
                term,
                before: self.force.len(),
                second: false,
            })
            .unwrap();
        self.force.push_fact(true, term);
    }

    /// Cuts the items back to the innermost split, whose second half begins with the fact that its term is false.
    pub fn cut(&mut self)
        requires { IsInFirstHalf self.old.splits }
        ensures { self.new ≡ turned self.old self.old.splits }
    {
        let last = self.splits.len() - 1;
        let split = self.splits[last];
        self.splits[last] = OpenSplit {
            term: split.term,
            before: split.before,
            second: true,
        };
        self.force.truncate(split.before);
        self.force.push_fact(false, split.term);
        self.closed = false;
    }

    /// Closes the branch, and with it those around it whose split is in its second half.
    pub fn close(&mut self)
        ensures { self.new ≡ shut self.old }
    {
        let count = open_count(&self.splits);
        self.splits.truncate(count);
        self.closed = true;
    }
}

fn ends_in_first_half(splits: &[OpenSplit]) -> bool
    ensures { IsTrue result ↔ IsInFirstHalf (stacked splits.now) }
{
    let count = splits.len();
    count > 0 && !splits[count - 1].second
}

// How many splits are open when the innermost branch is closed.
fn open_count(splits: &[OpenSplit]) -> usize
    ensures { stacked (take result splits.now) ≡ open_around (stacked splits.now) }
{
    let mut count = splits.len();
    while count > 0 {
        if !splits[count - 1].second {
            return count;
        }
        count -= 1;
    }
    0
}
