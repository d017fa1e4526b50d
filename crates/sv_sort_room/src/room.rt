ghost use Rattle.std.specs.Prelude.{◌≡◌, ◌↔◌, ◌+◌, ◌<◌, ◌≤◌, ◌++◌, ◌∷◌, [], length, take, slice_get, Some, IfOk, IsTrue, MatchOption, true};
ghost use Rattle.std.specs.List.{Contains};
ghost use Rattle.sv_term.specs.Sorts.{is_num, matches, parts, count, sort_at};
ghost use Rattle.sv_sort_room.specs.SortAdding.{IsNewCell};
ghost use Rattle.sv_sort_room.specs.SortCells.{sort_cells, sorts_of, nth_sort, sort_by, HasParts, IsCell, IsNumber, with_sort, Extends, DifferBySort};

use crate::cell::{Cell, cell_code, same_cell};
use std::alloc::Global;
use std::marker::Model;
use sv_table::Table;
use sv_text::NoMemory;

/// Sorts by number. A contract sees the list of their cells, and for how many there is room.
#[derive(Drop)]
pub struct SortRoom {
    cells: Vec<Cell>,
    table: Table,
}

impl Model for SortRoom {
    ghost use Rattle.std.specs.Prelude.{◌≡◌, ◌≤◌, map, [], vec_capacity};
    ghost use Rattle.sv_sort_room.specs.BuiltLists.{AreNew};
    ghost use Rattle.sv_sort_room.specs.SortAdding.{IsNewCell};
    ghost use Rattle.sv_sort_room.specs.SortCells.{SortCells, sort_cells, sort_by, HasParts};
    ghost use Rattle.sv_sort_room.specs.CellCodes.{code_of};

    ghost Value = { SortCells };

    ghost view = { λ r. sort_cells r.cells.items r.table.room };

    ghost invariant = { λ r. AreNew sort_by HasParts [] r.cells.items × (r.table.codes ≡ map code_of r.cells.items)
        × (r.table.room ≤ vec_capacity r.cells) };
}

impl SortRoom {
    /// No sorts, and room for so many. It takes all memory that is ever needed.
    pub fn new(alloc: Global, room: usize) -> Result<SortRoom, NoMemory>
        ensures { IfOk result (λ r. r ≡ sort_cells [] room) }
    {
        Ok(SortRoom {
            cells: Vec::with_capacity(alloc, room)?,
            table: Table::new(alloc, room)?,
        })
    }

    /// How many sorts there are.
    pub fn len(&self) -> usize
        ensures { result ≡ length self.now.cells }
    {
        self.cells.len()
    }

    /// Whether there is room for so many more.
    pub fn has_room(&self, more: usize) -> bool
        ensures { IsTrue result ↔ (length self.now.cells + more ≤ self.now.room) }
    {
        self.cells.len() <= self.table.room() && more <= self.table.room() - self.cells.len()
    }

    /// The sort of that number, by the numbers of its parts.
    pub fn cell(&self, number: usize) -> Cell
        requires { number < length self.now.cells }
        ensures { IsCell self.now.cells number result }
    {
        self.cells[number]
    }

    fn find(&self, cell: Cell) -> Option<usize>
        ensures { MatchOption result (Contains self.now.cells cell → ⊥)
            (λ k. slice_get self.now.cells k ≡ Some cell) }
    {
        let mut at = self.table.last(cell_code(cell));
        while let Some(place) = at {
            if same_cell(self.cells[place], cell) {
                return Some(place);
            }
            at = self.table.before(place);
        }
        None
    }

    /// The number of the sort of that cell: the old one where it is there, or else the next.
    pub fn add(&mut self, cell: Cell) -> usize
        requires parts { HasParts (sorts_of self.old.cells) cell }
        requires room { length self.old.cells < self.old.room }
        ensures number { IsNumber self.new.cells result (sort_by (sorts_of self.old.cells) cell) }
        ensures sorts { sorts_of self.new.cells ≡ with_sort (sorts_of self.old.cells) (sort_by (sorts_of self.old.cells) cell) }
        ensures kept { Extends self.old.cells self.new.cells }
        ensures room { self.new.room ≡ self.old.room }
    {
        let _ = &self.cells;
        if let Some(number) = self.find(cell) {
            return number;
        }
        self.push(cell)
    }

    fn push(&mut self, cell: Cell) -> usize
        requires { IsNewCell self.old cell }
        ensures number { result ≡ length self.old.cells }
        ensures cells { self.new ≡ sort_cells (self.old.cells ++ cell ∷ []) self.old.room }
    {
        let number = self.cells.len();
        self.cells.push(cell).unwrap();
        self.table.push(cell_code(cell));
        number
    }

    /// Leaves the first `count` sorts, or all where there are no more.
    pub fn truncate(&mut self, count: usize)
        ensures { self.new ≡ sort_cells (take count self.old.cells) self.old.room }
    {
        self.cells.truncate(count);
        self.table.truncate(count);
    }

    /// Whether it is a sort of numbers.
    pub fn is_num(&self, number: usize) -> bool
        requires { number < length self.now.cells }
        ensures { result ≡ is_num (nth_sort (sorts_of self.now.cells) number) }
    {
        match self.cell(number) {
            Cell::Num(_) => true,
            Cell::Bool | Cell::Arr(_) | Cell::Unit | Cell::Tup(_, _) => false,
        }
    }

    /// Whether the two are one sort, where all sorts of numbers count as one.
    pub fn matches(&self, first: usize, second: usize) -> bool
        requires first { first < length self.now.cells }
        requires second { second < length self.now.cells }
        ensures { result ≡ matches (nth_sort (sorts_of self.now.cells) first) (nth_sort (sorts_of self.now.cells) second) }
    {
        let _ = &self.cells;
        let numbers = self.is_num(first) && self.is_num(second);
        numbers || first == second
    }

    /// How many parts a tuple has; 0 for another sort.
    pub fn count(&self, number: usize) -> usize
        requires { number < length self.now.cells }
        ensures { result ≡ count (parts (nth_sort (sorts_of self.now.cells) number)) }
    {
        let mut count = 0;
        let mut at = number;
        while let Cell::Tup(_, rest) = self.cell(at) {
            count += 1;
            at = rest;
        }
        count
    }

    /// The part of a tuple at the place `k`, counted from 0; `None` where it has no such part, or is no tuple.
    pub fn part(&self, number: usize, k: usize) -> Option<usize>
        requires { number < length self.now.cells }
        ensures { MatchOption result (count (parts (nth_sort (sorts_of self.now.cells) number)) ≤ k)
            (λ n. (k < count (parts (nth_sort (sorts_of self.now.cells) number)))
            × IsNumber self.now.cells n (sort_at k (parts (nth_sort (sorts_of self.now.cells) number)))) }
    {
        let mut left = k;
        let mut at = number;
        while let Cell::Tup(first, rest) = self.cell(at) {
            if left == 0 {
                return Some(first);
            }
            left -= 1;
            at = rest;
        }
        None
    }

    /// Each sort has one number. It does nothing.
    pub fn is_sound(&self)
        ensures { DifferBySort self.now.cells }
    {
        let _ = &self.cells;
    }
}
