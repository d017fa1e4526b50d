ghost use Rattle.std.specs.Prelude.{◌≡◌, ◌<◌, ◌-◌, ◌++◌, ◌∷◌, [], length, slice_index, take, IfOk, MatchOption};
ghost use Rattle.sv_table.specs.Places.{places, HasNone, IsLast};

use crate::walk::walk;
use std::alloc::Global;
use std::marker::Model;
use sv_text::NoMemory;

/// A list of codes in a room of fixed size. A contract sees the list and the size of the room.
#[derive(Drop)]
pub struct Table {
    codes: Vec<usize>,
    // for each place 1 more than the last place before it whose code has the same remainder, or 0
    links: Vec<usize>,
    // for each remainder 1 more than the last place whose code has it, or 0
    heads: Vec<usize>,
    room: usize,
}

impl Model for Table {
    ghost use Rattle.std.specs.Prelude.{◌≤◌, length, vec_capacity};
    ghost use Rattle.sv_table.specs.Places.{Places, places};
    ghost use Rattle.sv_table.specs.Chains.{IsChained};

    ghost Value = { Places };

    ghost view = { λ t. places t.codes.items t.room };

    ghost invariant = { λ t. IsChained t.codes.items t.links.items t.heads.items × (length t.codes.items ≤ t.room)
        × (t.room ≤ vec_capacity t.codes) × (t.room ≤ vec_capacity t.links) };
}

impl Table {
    /// No codes, and room for so many. It takes all memory that the table ever needs.
    pub fn new(alloc: Global, room: usize) -> Result<Table, NoMemory>
        ensures { IfOk result (λ t. t ≡ places [] room) }
    {
        let codes = Vec::with_capacity(alloc, room)?;
        let links = Vec::with_capacity(alloc, room)?;
        let mut heads = Vec::new(alloc);
        heads.resize(room.max(1), 0)?;
        Ok(Table {
            codes,
            links,
            heads,
            room,
        })
    }

    /// How many codes there are.
    pub fn len(&self) -> usize
        ensures { result ≡ length self.now.codes }
    {
        self.codes.len()
    }

    /// For how many codes there is room, those that are there included.
    pub fn room(&self) -> usize
        ensures { result ≡ self.now.room }
    {
        self.room
    }

    /// The last place that has the code.
    pub fn last(&self, code: usize) -> Option<usize>
        ensures { MatchOption result (HasNone self.now.codes code (length self.now.codes))
            (IsLast self.now.codes code (length self.now.codes)) }
    {
        let bucket = code % self.heads.len();
        walk(&self.codes, &self.links, self.heads[bucket], code)
    }

    /// The last place before this one that has the same code.
    pub fn before(&self, place: usize) -> Option<usize>
        requires { place < length self.now.codes }
        ensures { let code = slice_index self.now.codes place in
            MatchOption result (HasNone self.now.codes code place) (IsLast self.now.codes code place) }
    {
        walk(
            &self.codes,
            &self.links,
            self.links[place],
            self.codes[place],
        )
    }

    /// Puts the code at the end.
    pub fn push(&mut self, code: usize)
        requires { length self.old.codes < self.old.room }
        ensures { self.new ≡ places (self.old.codes ++ code ∷ []) self.old.room }
    {
        let bucket = code % self.heads.len();
        self.links.push(self.heads[bucket]).unwrap();
        self.codes.push(code).unwrap();
        self.heads[bucket] = self.codes.len();
    }

    /// Leaves the first `count` codes, or all where there are no more.
    pub fn truncate(&mut self, count: usize)
        ensures { self.new ≡ places (take count self.old.codes) self.old.room }
    {
        while self.codes.len() > count {
            self.pop();
        }
    }

    fn pop(&mut self)
        requires { 0 < length self.old.codes }
        ensures { self.new
            ≡ places (take (length self.old.codes - 1) self.old.codes) self.old.room }
    {
        let code = self.codes.pop().unwrap();
        let link = self.links.pop().unwrap();
        let bucket = code % self.heads.len();
        self.heads[bucket] = link;
    }
}
