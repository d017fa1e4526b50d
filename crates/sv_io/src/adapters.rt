ghost use Rattle.std.specs.Prelude.{◌≡◌, ◌≤◌, ◌<◌, ◌++◌, None, Some, IfSome, length, take};
ghost use Rattle.sv_io.specs.Moves.{IfTook, IsAmountPut, IsAmountTaken, Rose, TakesFront, count_after, count_end, faults_after_put, faults_after_take};

use crate::sink::{Put, Sink};
use crate::source::{Source, Taken};
use std::io::{Read, Write};
use std::marker::Model;

/// A reader as a source that tells no bytes.
#[derive(Drop)]
pub struct StdSource<R: Read + Drop> {
    inner: R,
    faults: u64,
    takes: u64,
}

impl<R: Read + Drop> Model for StdSource<R> {
    ghost use Rattle.sv_io.specs.Streams.{Stream};

    ghost Value = { Stream };

    ghost view = { λ s. record { known = R.remaining s.inner; calls = s.takes; faults = s.faults } };
}

impl<R: Read + Drop> StdSource<R> {
    /// A source over a reader, with its counts at 0.
    pub fn new(inner: R) -> StdSource<R>
        ensures { result ≡ record { known = R.remaining inner; calls = 0; faults = 0 } }
    {
        StdSource {
            inner,
            faults: 0,
            takes: 0,
        }
    }
}

impl<R: Read + Drop> Source for StdSource<R> {
    ghost use Rattle.std.specs.Prelude.{None};

    ghost left = { λ _. None };

    ghost faults = { λ s. s.faults };

    ghost takes = { λ s. s.calls };

    ghost calls = { λ _. None };

    ghost is_sure = { λ _. ⊥ };

    /// No clause says when a reader fails. Where it says what it has left, `known` holds of that.
    fn take(&mut self, into: &mut [u8]) -> Taken
        requires { 0 < length into.old }
        ensures amount { IsAmountTaken result (length into.old) }
        ensures faults { self.old.faults ≤ self.new.faults }
        ensures faults_end { count_end ≤ self.old.faults → self.new.faults ≡ self.old.faults }
        ensures cause { result ≡ Taken.Failed → Rose self.old.faults self.new.faults }
        ensures takes { self.old.calls ≤ self.new.calls }
        ensures counted { self.new.calls ≡ count_after self.old.calls }

        ensures raised { self.new.faults ≡ faults_after_take result self.old.faults }
        ensures known { TakesFront self.old.known self.new.known result into.new }
    {
        self.takes = self.takes.saturating_add(1);
        match self.inner.read(into) {
            Ok(0) => Taken::End,
            Ok(amount) => Taken::Got(amount),
            Err(_) => {
                self.faults = self.faults.saturating_add(1);
                Taken::Failed
            }
        }
    }
}

/// A writer as a sink that tells no bytes. Each put is flushed.
#[derive(Drop)]
pub struct StdSink<W: Write + Drop> {
    inner: W,
    faults: u64,
    puts: u64,
}

impl<W: Write + Drop> Model for StdSink<W> {
    ghost use Rattle.sv_io.specs.Streams.{Stream};

    ghost Value = { Stream };

    ghost view = { λ s. record { known = W.contents s.inner; calls = s.puts; faults = s.faults } };
}

impl<W: Write + Drop> StdSink<W> {
    /// A sink over a writer, with its counts at 0.
    pub fn new(inner: W) -> StdSink<W>
        ensures { result ≡ record { known = W.contents inner; calls = 0; faults = 0 } }
    {
        StdSink {
            inner,
            faults: 0,
            puts: 0,
        }
    }
}

impl<W: Write + Drop> Sink for StdSink<W> {
    ghost use Rattle.std.specs.Prelude.{None};

    ghost held = { λ _. None };

    ghost faults = { λ s. s.faults };

    ghost puts = { λ s. s.calls };

    ghost calls = { λ _. None };

    ghost room = { λ _. 0 };

    /// No clause says when a writer fails. Where it says what it holds, `known` holds of that: after a failed flush the
    /// bytes may have been written.
    fn put(&mut self, piece: &[u8]) -> Put
        requires { 0 < length piece.now }
        ensures amount { IsAmountPut result (length piece.now) }
        ensures faults { self.old.faults ≤ self.new.faults }
        ensures faults_end { count_end ≤ self.old.faults → self.new.faults ≡ self.old.faults }
        ensures cause { result ≡ Put.Failed → Rose self.old.faults self.new.faults }
        ensures puts { self.old.calls ≤ self.new.calls }
        ensures counted { self.new.calls ≡ count_after self.old.calls }

        ensures raised { self.new.faults ≡ faults_after_put result self.old.faults }
        ensures known { IfTook result (λ n. IfSome self.old.known (λ held. self.new.known ≡ Some (held ++ take n piece.now))) }
    {
        self.puts = self.puts.saturating_add(1);
        match self.inner.write(piece) {
            Ok(0) | Err(_) => {
                self.faults = self.faults.saturating_add(1);
                Put::Failed
            }
            Ok(amount) => match self.inner.flush() {
                Ok(()) => Put::Took(amount),
                Err(_) => {
                    self.faults = self.faults.saturating_add(1);
                    Put::Failed
                }
            },
        }
    }
}
