ghost use Rattle.std.specs.Prelude.{◌≡◌, ◌≢◌, ◌+◌, ◌<◌, ◌≤◌, ◌↔◌, ◌-◌, ◌^◌, [], All, Contains, length, min, Some};
ghost use Rattle.sv_io.specs.Moves.{IfGot, IsAmountTaken, TakesFront, Rose, count_after, count_end, faults_after_take};

use crate::source::{Source, Taken};
use std::alloc::Global;
use std::marker::Model;

/// A source over bytes in memory, which moves at most `piece` bytes a call, and fails at the calls whose numbers are in a list.
#[derive(Drop)]
pub struct MemSource {
    bytes: Vec<u8>,
    at: usize,
    piece: usize,
    fails: Vec<u64>,
    calls: u64,
    faults: u64,
}

impl Model for MemSource {
    ghost use Rattle.std.specs.Prelude.{◌≤◌, drop, vec_len};
    ghost use Rattle.sv_io.specs.Mem.{Tape};

    ghost Value = { Tape };

    ghost view = { λ s. record { left = drop s.at s.bytes.items; piece = s.piece; fails = s.fails.items; calls = s.calls; faults = s.faults } };

    ghost invariant = { λ s. (s.at ≤ vec_len s.bytes) × (1 ≤ s.piece) };
}

impl MemSource {
    /// A source over these bytes. It takes no memory.
    pub fn new(bytes: Vec<u8>, piece: usize, fails: Vec<u64>) -> MemSource
        requires piece { 1 ≤ piece }
        requires fails { All (λ k. k < 2 ^ 64 - 1) fails.items }
        ensures { result ≡ record { left = bytes.items; piece = piece; fails = fails.items; calls = 0; faults = 0 } }
    {
        MemSource {
            bytes,
            at: 0,
            piece,
            fails,
            calls: 0,
            faults: 0,
        }
    }
}

impl Source for MemSource {
    ghost use Rattle.std.specs.Prelude.{Some, None, ◌≡◌, []};

    ghost left = { λ s. Some s.left };

    ghost faults = { λ s. s.faults };

    ghost takes = { λ s. s.calls };

    ghost calls = { λ _. None };

    ghost is_sure = { λ s. s.fails ≡ [] };

    /// Call number k fails exactly where k is in the list. No call changes the piece or the list.
    fn take(&mut self, into: &mut [u8]) -> Taken
        requires { 0 < length into.old }
        ensures amount { IsAmountTaken result (length into.old) }
        ensures bytes { TakesFront (Some self.old.left) (Some self.new.left) result into.new }

        ensures faults { self.old.faults ≤ self.new.faults }
        ensures faults_end { count_end ≤ self.old.faults → self.new.faults ≡ self.old.faults }
        ensures cause { result ≡ Taken.Failed → Rose self.old.faults self.new.faults }
        ensures takes { self.old.calls ≤ self.new.calls }
        ensures counted { self.new.calls ≡ count_after self.old.calls }
        ensures sure { self.old.fails ≡ [] → (result ≢ Taken.Failed) × (self.new.fails ≡ []) }

        ensures exactly { (result ≡ Taken.Failed) ↔ Contains self.old.fails (count_after self.old.calls) }
        ensures moved { IfGot result (λ n. n ≡ min (min (length self.old.left) self.old.piece) (length into.old)) }
        ensures raised { self.new.faults ≡ faults_after_take result self.old.faults }
        ensures same_plan { (self.new.fails ≡ self.old.fails) × (self.new.piece ≡ self.old.piece) }
    {
        let number = self.calls.saturating_add(1);
        self.calls = number;
        if self.fails.contains(&number) {
            self.faults = self.faults.saturating_add(1);
            return Taken::Failed;
        }
        let left = self.bytes.len() - self.at;
        if left == 0 {
            return Taken::End;
        }
        let amount = left.min(self.piece).min(into.len());
        into[..amount].copy_from_slice(&self.bytes[self.at..self.at + amount]);
        self.at += amount;
        Taken::Got(amount)
    }
}
