ghost use Rattle.std.specs.Prelude.{◌≡◌, ◌↔◌, ◌+◌, ◌<◌, ◌≤◌, ◌++◌, ◌∷◌, [], length, take, slice_get, Some, IfOk, IsTrue, MatchOption, true};
ghost use Rattle.std.specs.List.{All, Contains};
ghost use Rattle.sv_term.specs.Terms.{sort_of};
ghost use Rattle.sv_log.specs.Logs.{nth_term};
ghost use Rattle.sv_sort_room.specs.SortCells.{sort_cells, sorts_of, sort_by, HasParts, IsNumber, with_sort, Extends};
ghost use Rattle.sv_term_room.specs.TermRows.{term_node, term_row, term_rows, with_cells, with_row, nodes_of, terms_of, tree_of, HasSort, AreBelow, IsLow, IsNodeAt, IsTermNumber, IsNewTerm, HasRoom, AreKept};

use crate::code::node_code;
use crate::shape::Shape;
use std::alloc::Global;
use std::marker::Model;
use sv_list_room::ListRoom;
use sv_sort_room::{Cell, SortRoom};
use sv_table::Table;
use sv_text::NoMemory;

// A term without its arguments, and the number of its sort.
#[derive(Clone, Copy)]
struct Head {
    shape: Shape,
    sort: usize,
}

/// Terms by number. A contract sees their rows, the cells of their sorts, and for how many terms, arguments of all terms, and sorts
/// there is room. Each term fits, and its arguments have smaller numbers.
#[derive(Drop)]
pub struct TermRoom {
    heads: Vec<Head>,
    args: ListRoom,
    table: Table,
    sorts: SortRoom,
}

impl Model for TermRoom {
    ghost use Rattle.std.specs.Prelude.{◌≡◌, ◌≤◌, vec_capacity};
    ghost use Rattle.sv_term_room.specs.TermRows.{TermRows, term_rows};
    ghost use Rattle.sv_term_room.specs.TermKeeping.{paired, IsStored};

    ghost Value = { TermRows };

    ghost view = { λ r. term_rows (paired r.heads.items r.args.lists) r.sorts.cells r.table.room r.args.numbers_room r.sorts.room };

    ghost invariant = { λ r. IsStored r.heads.items r.args.lists r.sorts.cells r.table.codes × (r.args.room ≡ r.table.room)
        × (r.table.room ≤ vec_capacity r.heads) };
}

impl TermRoom {
    /// No terms and no sorts, and room for so many terms, arguments of all terms, and sorts. It takes all memory that is ever needed.
    pub fn new(
        alloc: Global,
        room: usize,
        args_room: usize,
        sorts_room: usize,
    ) -> Result<TermRoom, NoMemory>
        ensures { IfOk result (λ r. r ≡ term_rows [] [] room args_room sorts_room) }
    {
        Ok(TermRoom {
            heads: Vec::with_capacity(alloc, room)?,
            args: ListRoom::new(alloc, room, args_room)?,
            table: Table::new(alloc, room)?,
            sorts: SortRoom::new(alloc, sorts_room)?,
        })
    }

    /// How many terms there are.
    pub fn len(&self) -> usize
        ensures { result ≡ length self.now.rows }
    {
        self.heads.len()
    }

    /// The sorts, by number.
    pub fn sorts(&self) -> &SortRoom
        ensures { result.now ≡ sort_cells self.now.cells self.now.sorts_room }
    {
        &self.sorts
    }

    /// The shape of a term, and the numbers of its arguments.
    pub fn node(&self, number: usize) -> (Shape, &[usize])
        requires { number < length self.now.rows }
        ensures { IsNodeAt self.now number result.0 result.1.now }
    {
        (self.heads[number].shape, self.args.list(number))
    }

    /// The number of the sort of a term.
    pub fn sort_of(&self, number: usize) -> usize
        requires { number < length self.now.rows }
        ensures { IsNumber self.now.cells result (sort_of (nth_term (terms_of self.now) number)) }
    {
        self.heads[number].sort
    }

    /// The number of the term of that shape over these arguments, if it is there.
    pub fn find(&self, shape: Shape, args: &[usize]) -> Option<usize>
        requires args { AreBelow (length self.now.rows) args.now }
        requires sort { HasSort (length self.now.cells) shape }
        ensures { MatchOption result (Contains (terms_of self.now) (tree_of self.now shape args.now) → ⊥)
            (λ n. IsTermNumber self.now n (tree_of self.now shape args.now)) }
    {
        self.sorts.is_sound();
        let mut at = self.table.last(node_code(shape, args));
        while let Some(place) = at {
            if self.has_node(place, shape, args) {
                return Some(place);
            }
            at = self.table.before(place);
        }
        None
    }

    fn has_node(&self, place: usize, shape: Shape, args: &[usize]) -> bool
        requires { place < length self.now.rows }
        ensures { IsTrue result
            ↔ (slice_get (nodes_of self.now.rows) place ≡ Some (term_node shape args.now)) }
    {
        self.heads[place].shape.is(shape) && same_args(self.args.list(place), args)
    }

    /// Whether there is room for one more term with so many arguments, and for so many more sorts.
    pub fn has_room(&self, args: usize, sorts: usize) -> bool
        ensures { IsTrue result ↔ HasRoom self.now args sorts }
    {
        self.args.has_room(args) && self.sorts.has_room(sorts)
    }

    /// Puts the term of that shape over these arguments at the end. `sort` is the number of its sort.
    pub fn push(&mut self, shape: Shape, args: &[usize], sort: usize)
        requires new { IsNewTerm self.old shape args.now sort }
        requires room { HasRoom self.old (length args.now) 0 }
        ensures rows { self.new ≡ with_row (term_row (term_node shape args.now) sort) self.old }
        ensures terms { terms_of self.new ≡ terms_of self.old ++ tree_of self.old shape args.now ∷ [] }
    {
        self.heads.push(Head { shape, sort }).unwrap();
        self.args.push(args);
        self.table.push(node_code(shape, args));
    }

    /// The number of the sort of that cell: the old one where it is there, or else the next.
    pub fn add_sort(&mut self, cell: Cell) -> usize
        requires parts { HasParts (sorts_of self.old.cells) cell }
        requires room { length self.old.cells < self.old.sorts_room }
        ensures number { IsNumber self.new.cells result (sort_by (sorts_of self.old.cells) cell) }
        ensures sorts { sorts_of self.new.cells ≡ with_sort (sorts_of self.old.cells) (sort_by (sorts_of self.old.cells) cell) }
        ensures kept { Extends self.old.cells self.new.cells }
        ensures rest { self.new ≡ with_cells self.new.cells self.old }
        ensures terms { terms_of self.new ≡ terms_of self.old }
    {
        self.sorts.add(cell)
    }

    /// Leaves the first `count` sorts, or all where there are no more. No term may need the others.
    pub fn truncate_sorts(&mut self, count: usize)
        requires { All (IsLow count) self.old.rows }
        ensures cells { self.new ≡ with_cells (take count self.old.cells) self.old }
        ensures terms { terms_of self.new ≡ terms_of self.old }
    {
        self.sorts.truncate(count);
    }

    /// Each term fits and has its sort there, each term has one number, and each sort has one. It does nothing.
    pub fn is_sound(&self)
        ensures { AreKept self.now }
    {
        self.sorts.is_sound();
    }
}

fn same_args(own: &[usize], other: &[usize]) -> bool
    ensures { IsTrue result ↔ (own.now ≡ other.now) }
{
    own == other
}
