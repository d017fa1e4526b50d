ghost use Rattle.std.specs.Prelude.{◌≡◌, ◌↔◌, ◌+◌, ◌<◌, ◌≤◌, ◌++◌, ◌∷◌, [], length, take, slice_get, slice_range, Some, IfOk, IsTrue, MatchOption};
ghost use Rattle.std.specs.List.{Contains};
ghost use Rattle.sv_log.specs.LogRows.{row};
ghost use Rattle.sv_row.specs.RowParts.{monomials};
ghost use Rattle.sv_force.specs.InForce.{FactOn, RowOf, force, parts_in, IsFactAt, IsRowAt};

use crate::code::{fact_code, row_code};
use std::alloc::Global;
use std::marker::Model;
use sv_table::Table;
use sv_text::NoMemory;

#[derive(Clone, Copy)]
enum Kind {
    Fact(bool, usize),
    // with the constant
    Row(i128),
}

// The parts of a row stand from `start` to `end` among all parts.
#[derive(Clone, Copy)]
struct Slot {
    kind: Kind,
    start: usize,
    end: usize,
}

/// Facts and rows in the order in which they came. A fact is a sign and the number of a term.
/// A contract sees the list, and for how many items and for how many parts of rows there is room.
#[derive(Drop)]
pub struct InForce {
    slots: Vec<Slot>,
    parts: Vec<(i128, usize)>,
    table: Table,
    parts_room: usize,
}

impl Model for InForce {
    ghost use Rattle.std.specs.Prelude.{map, ◌≤◌, length, vec_capacity};
    ghost use Rattle.sv_force.specs.InForce.{Force, force};

    ghost Value = { Force };

    ghost use Rattle.sv_force.specs.Slots.{numbered, IsStored};

    ghost view = { λ f. force (map (numbered f.parts.items) f.slots.items) f.table.room f.parts_room };

    ghost invariant = { λ f. IsStored f.parts.items f.slots.items f.table.codes × (f.table.room ≤ vec_capacity f.slots)
        × (length f.parts.items ≤ f.parts_room) × (f.parts_room ≤ vec_capacity f.parts) };
}

impl InForce {
    /// Nothing, and room for so many items and for so many parts of rows. It takes all memory that is ever needed.
    pub fn new(alloc: Global, room: usize, parts_room: usize) -> Result<InForce, NoMemory>
        ensures { IfOk result (λ f. f ≡ force [] room parts_room) }
    {
        Ok(InForce {
            slots: Vec::with_capacity(alloc, room)?,
            parts: Vec::with_capacity(alloc, parts_room)?,
            table: Table::new(alloc, room)?,
            parts_room,
        })
    }

    /// How many items there are.
    pub fn len(&self) -> usize
        ensures { result ≡ length self.now.items }
    {
        self.slots.len()
    }

    /// Whether there is room for one more item, with so many parts.
    pub fn has_room(&self, parts: usize) -> bool
        ensures { IsTrue result ↔ (length self.now.items < self.now.room) × (parts_in self.now.items + parts ≤ self.now.parts_room) }
    {
        self.slots.len() < self.table.room() && parts <= self.parts_room - self.parts.len()
    }

    /// The sign and the term of a fact; `None` for a row.
    pub fn fact(&self, place: usize) -> Option<(bool, usize)>
        requires { place < length self.now.items }
        ensures { MatchOption result (IsRowAt self.now.items place) (λ f. slice_get self.now.items place ≡ Some (FactOn f.0 f.1)) }
    {
        match self.slots[place].kind {
            Kind::Fact(sign, term) => Some((sign, term)),
            Kind::Row(_) => None,
        }
    }

    /// The constant and the parts of a row; `None` for a fact.
    pub fn row(&self, place: usize) -> Option<(i128, &[(i128, usize)])>
        requires { place < length self.now.items }
        ensures { MatchOption result (IsFactAt self.now.items place)
            (λ r. slice_get self.now.items place ≡ Some (RowOf (row r.0 (monomials r.1.now)))) }
    {
        let slot = self.slots[place];
        match slot.kind {
            Kind::Fact(_, _) => None,
            Kind::Row(constant) => Some((constant, between(&self.parts, slot.start, slot.end))),
        }
    }

    /// Whether the fact is there.
    pub fn holds_fact(&self, sign: bool, term: usize) -> bool
        ensures { IsTrue result ↔ Contains self.now.items (FactOn sign term) }
    {
        let mut at = self.table.last(fact_code(sign, term));
        while let Some(place) = at {
            if self.is_fact(place, sign, term) {
                return true;
            }
            at = self.table.before(place);
        }
        false
    }

    /// Whether the row is there.
    pub fn holds_row(&self, constant: i128, parts: &[(i128, usize)]) -> bool
        ensures { IsTrue result ↔ Contains self.now.items (RowOf (row constant (monomials parts.now))) }
    {
        let mut at = self.table.last(row_code(constant, parts));
        while let Some(place) = at {
            if self.is_row(place, constant, parts) {
                return true;
            }
            at = self.table.before(place);
        }
        false
    }

    fn is_fact(&self, place: usize, sign: bool, term: usize) -> bool
        requires { place < length self.now.items }
        ensures { IsTrue result ↔ (slice_get self.now.items place ≡ Some (FactOn sign term)) }
    {
        match self.fact(place) {
            Some((own_sign, own_term)) => own_sign == sign && own_term == term,
            None => false,
        }
    }

    fn is_row(&self, place: usize, constant: i128, parts: &[(i128, usize)]) -> bool
        requires { place < length self.now.items }
        ensures { IsTrue result
            ↔ (slice_get self.now.items place ≡ Some (RowOf (row constant (monomials parts.now)))) }
    {
        match self.row(place) {
            Some((own_constant, own_parts)) => own_constant == constant
                && same_parts(own_parts, parts),
            None => false,
        }
    }

    /// Adds a fact.
    pub fn push_fact(&mut self, sign: bool, term: usize)
        requires { length self.old.items < self.old.room }
        ensures { self.new ≡ force (self.old.items ++ FactOn sign term ∷ []) self.old.room self.old.parts_room }
    {
        let end = self.parts.len();
        self.slots
            .push(Slot {
                kind: Kind::Fact(sign, term),
                start: end,
                end,
            })
            .unwrap();
        self.table.push(fact_code(sign, term));
    }

    /// Adds a row.
    pub fn push_row(&mut self, constant: i128, parts: &[(i128, usize)])
        requires items { length self.old.items < self.old.room }
        requires parts { parts_in self.old.items + length parts.now ≤ self.old.parts_room }
        ensures { self.new ≡ force (self.old.items ++ RowOf (row constant (monomials parts.now)) ∷ []) self.old.room self.old.parts_room }
    {
        let start = self.parts.len();
        self.parts.extend_from_slice(parts).unwrap();
        self.slots
            .push(Slot {
                kind: Kind::Row(constant),
                start,
                end: self.parts.len(),
            })
            .unwrap();
        self.table.push(row_code(constant, parts));
    }

    /// Leaves the first `count` items, or all where there are no more.
    pub fn truncate(&mut self, count: usize)
        ensures { self.new ≡ force (take count self.old.items) self.old.room self.old.parts_room }
    {
        if count < self.slots.len() {
            self.parts.truncate(self.slots[count].start);
            self.slots.truncate(count);
            self.table.truncate(count);
        }
    }
}

fn between(parts: &[(i128, usize)], start: usize, end: usize) -> &[(i128, usize)]
    requires order { start ≤ end }
    requires within { end ≤ length parts.now }
    ensures { result.now ≡ slice_range parts.now start end }
{
    &parts[start..end]
}

fn same_parts(own: &[(i128, usize)], other: &[(i128, usize)]) -> bool
    ensures { IsTrue result ↔ (own.now ≡ other.now) }
{
    own == other
}
