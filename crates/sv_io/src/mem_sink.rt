ghost use Rattle.std.specs.Prelude.{◌≡◌, ◌≢◌, ◌+◌, ◌<◌, ◌≤◌, ◌↔◌, ◌-◌, ◌^◌, ◌⊎◌, [], All, Contains, length, min, Some, IfOk};
ghost use Rattle.sv_io.specs.Moves.{Appends, IfTook, IsAmountPut, Rose, UsesRoom, count_after, count_end, faults_after_put};
ghost use Rattle.sv_io.specs.Mem.{sure_room};

use crate::sink::{Put, Sink};
use std::alloc::Global;
use std::marker::Model;
use sv_text::NoMemory;

/// A sink in memory, which holds at most `room` bytes, takes at most `piece` a call, and fails at the calls whose numbers are in a list.
#[derive(Drop)]
pub struct MemSink {
    bytes: Vec<u8>,
    room: usize,
    piece: usize,
    fails: Vec<u64>,
    calls: u64,
    faults: u64,
}

impl Model for MemSink {
    ghost use Rattle.std.specs.Prelude.{◌≤◌, vec_len, vec_capacity};
    ghost use Rattle.sv_io.specs.Mem.{Drain};

    ghost Value = { Drain };

    ghost view = { λ s. record { held = s.bytes.items; room = s.room; piece = s.piece; fails = s.fails.items; calls = s.calls; faults = s.faults } };

    ghost invariant = { λ s. (vec_len s.bytes ≤ s.room) × (s.room ≤ vec_capacity s.bytes) × (1 ≤ s.piece) };
}

impl MemSink {
    /// An empty sink, which takes its room here.
    pub fn new(
        alloc: Global,
        room: usize,
        piece: usize,
        fails: Vec<u64>,
    ) -> Result<MemSink, NoMemory>
        requires piece { 1 ≤ piece }
        requires fails { All (λ k. k < 2 ^ 64 - 1) fails.items }
        ensures { IfOk result (λ s. s ≡ record { held = []; room = room; piece = piece; fails = fails.items; calls = 0; faults = 0 }) }
    {
        let bytes = Vec::with_capacity(alloc, room)?;
        Ok(MemSink {
            bytes,
            room,
            piece,
            fails,
            calls: 0,
            faults: 0,
        })
    }

    /// The bytes that it holds.
    pub fn bytes(&self) -> &[u8]
        ensures { result.now ≡ self.now.held }
    {
        self.bytes.as_slice()
    }
}

impl Sink for MemSink {
    ghost use Rattle.std.specs.Prelude.{Some, None};
    ghost use Rattle.sv_io.specs.Mem.{sure_room};

    ghost held = { λ s. Some s.held };

    ghost faults = { λ s. s.faults };

    ghost puts = { λ s. s.calls };

    ghost calls = { λ _. None };

    ghost room = { sure_room };

    /// Call number k fails exactly where k is in the list or no room is left. No call changes the room, the piece or the list.
    fn put(&mut self, piece: &[u8]) -> Put
        requires { 0 < length piece.now }
        ensures amount { IsAmountPut result (length piece.now) }
        ensures bytes { Appends (Some self.old.held) (Some self.new.held) result piece.now }
        ensures room { UsesRoom (sure_room self.old) (sure_room self.new) result }

        ensures faults { self.old.faults ≤ self.new.faults }
        ensures faults_end { count_end ≤ self.old.faults → self.new.faults ≡ self.old.faults }
        ensures cause { result ≡ Put.Failed → Rose self.old.faults self.new.faults }
        ensures puts { self.old.calls ≤ self.new.calls }
        ensures counted { self.new.calls ≡ count_after self.old.calls }

        ensures exactly { (result ≡ Put.Failed) ↔ (Contains self.old.fails (count_after self.old.calls) ⊎ (self.old.room ≤ length self.old.held)) }
        ensures moved { IfTook result (λ n. n ≡ min (min (self.old.room - length self.old.held) self.old.piece) (length piece.now)) }
        ensures raised { self.new.faults ≡ faults_after_put result self.old.faults }
        ensures same_plan { (self.new.fails ≡ self.old.fails) × (self.new.piece ≡ self.old.piece) × (self.new.room ≡ self.old.room) }
    {
        let number = self.calls.saturating_add(1);
        self.calls = number;
        let left = self.room - self.bytes.len();
        if left == 0 || self.fails.contains(&number) {
            self.faults = self.faults.saturating_add(1);
            return Put::Failed;
        }
        let amount = left.min(self.piece).min(piece.len());
        self.bytes.extend_from_slice(&piece[..amount]).unwrap();
        Put::Took(amount)
    }
}
