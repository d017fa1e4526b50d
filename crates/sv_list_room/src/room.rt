ghost use Rattle.std.specs.Prelude.{◌≡◌, ◌↔◌, ◌+◌, ◌<◌, ◌≤◌, ◌++◌, ◌∷◌, [], length, slice_get, slice_range, Some, IfOk, IsTrue};
ghost use Rattle.sv_list_room.specs.NumberLists.{number_lists, numbers_in};

use std::alloc::Global;
use std::marker::Model;
use sv_text::NoMemory;

// A list stands from `start` to `end` among all numbers.
#[derive(Clone, Copy)]
struct Span {
    start: usize,
    end: usize,
}

/// Lists of numbers in the order in which they came.
/// A contract sees them, and for how many lists and for how many numbers of all lists there is room.
#[derive(Drop)]
pub struct ListRoom {
    spans: Vec<Span>,
    numbers: Vec<usize>,
    room: usize,
    numbers_room: usize,
}

impl Model for ListRoom {
    ghost use Rattle.std.specs.Prelude.{map, ◌≤◌, length, vec_capacity};
    ghost use Rattle.sv_list_room.specs.NumberLists.{NumberLists, number_lists};
    ghost use Rattle.sv_list_room.specs.Spans.{spanned, AreStacked};

    ghost Value = { NumberLists };

    ghost view = { λ r. number_lists (map (spanned r.numbers.items) r.spans.items) r.room r.numbers_room };

    ghost invariant = { λ r. AreStacked 0 r.spans.items (length r.numbers.items) × (length r.spans.items ≤ r.room)
        × (r.room ≤ vec_capacity r.spans) × (length r.numbers.items ≤ r.numbers_room) × (r.numbers_room ≤ vec_capacity r.numbers) };
}

impl ListRoom {
    /// No lists, and room for so many and for so many numbers. It takes all memory that is ever needed.
    pub fn new(alloc: Global, room: usize, numbers_room: usize) -> Result<ListRoom, NoMemory>
        ensures { IfOk result (λ r. r ≡ number_lists [] room numbers_room) }
    {
        Ok(ListRoom {
            spans: Vec::with_capacity(alloc, room)?,
            numbers: Vec::with_capacity(alloc, numbers_room)?,
            room,
            numbers_room,
        })
    }

    /// Whether there is room for one more list, with so many numbers.
    pub fn has_room(&self, numbers: usize) -> bool
        ensures { IsTrue result ↔ (length self.now.lists < self.now.room) × (numbers_in self.now.lists + numbers ≤ self.now.numbers_room) }
    {
        self.spans.len() < self.room && numbers <= self.numbers_room - self.numbers.len()
    }

    /// The list of that number.
    pub fn list(&self, number: usize) -> &[usize]
        requires { number < length self.now.lists }
        ensures { slice_get self.now.lists number ≡ Some result.now }
    {
        let span = self.spans[number];
        between(&self.numbers, span.start, span.end)
    }

    /// Puts a list at the end.
    pub fn push(&mut self, list: &[usize])
        requires lists { length self.old.lists < self.old.room }
        requires numbers { numbers_in self.old.lists + length list.now ≤ self.old.numbers_room }
        ensures { self.new ≡ number_lists (self.old.lists ++ list.now ∷ []) self.old.room self.old.numbers_room }
    {
        let start = self.numbers.len();
        self.numbers.extend_from_slice(list).unwrap();
        self.spans
            .push(Span {
                start,
                end: self.numbers.len(),
            })
            .unwrap();
    }
}

fn between(numbers: &[usize], start: usize, end: usize) -> &[usize]
    requires order { start ≤ end }
    requires within { end ≤ length numbers.now }
    ensures { result.now ≡ slice_range numbers.now start end }
{
    &numbers[start..end]
}
