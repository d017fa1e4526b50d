// A source and a sink in memory that tell their calls, for tests. Each has memory for a number of calls, reserved when it
// is made. Once that is used up each call fails, and is not told.
ghost use Rattle.std.specs.Prelude.{◌≡◌, ◌+◌, ◌≤◌, [], All, IfOk, length, vec_len, vec_capacity};

use std::alloc::Global;
use sv_io::{MemSink, MemSource, Put, Sink, Source, Taken};
use sv_text::NoMemory;

/// One call of `take`: the length of its buffer, and how many bytes it gave.
#[derive(Clone, Copy, Debug, PartialEq, Eq)]
pub struct TakeRecord {
    pub room: usize,
    pub got: usize,
}

/// A source in memory that tells its calls.
#[derive(Drop)]
pub struct RecordingSource {
    inner: MemSource,
    records: Vec<TakeRecord>,
    most: usize,
    takes: u64,
    faults: u64,
    ghost within: { vec_len records ≤ most },
    ghost reserved: { most ≤ vec_capacity records },
}

impl RecordingSource {
    /// It has memory for `most` calls.
    pub fn new(alloc: Global, inner: MemSource, most: usize) -> Result<RecordingSource, NoMemory>
        ensures { IfOk result (λ s. (s.inner ≡ inner) × (s.records.items ≡ []) × (s.most ≡ most) × (s.takes ≡ 0) × (s.faults ≡ 0)) }
    {
        let records = Vec::with_capacity(alloc, most)?;
        Ok(RecordingSource {
            inner,
            records,
            most,
            takes: 0,
            faults: 0,
        })
    }

    /// The calls so far.
    pub fn records(&self) -> &[TakeRecord]
        ensures { result.now ≡ self.now.records.items }
    {
        self.records.as_slice()
    }
}

impl Source for RecordingSource {
    ghost use Rattle.std.specs.Prelude.{map, Some};

    ghost left = { λ s. Some s.inner.left };

    ghost faults = { λ s. s.faults };

    ghost takes = { λ s. s.takes };

    ghost calls = { λ s. Some (map (λ r. record { room = r.room; got = r.got }) s.records.items) };

    ghost is_sure = { λ _. ⊥ };

    fn take(&mut self, into: &mut [u8]) -> Taken {
        self.takes = self.takes.saturating_add(1);
        if self.records.len() == self.most {
            self.faults = self.faults.saturating_add(1);
            return Taken::Failed;
        }
        let taken = self.inner.take(into);
        let got = match taken {
            Taken::Got(amount) => amount,
            Taken::End => 0,
            Taken::Failed => {
                self.faults = self.faults.saturating_add(1);
                0
            }
        };
        let room = into.len();
        self.records.push(TakeRecord { room, got }).unwrap();
        taken
    }
}

/// One call of `put`: what it was given, and how many bytes of that it took.
#[derive(Drop)]
pub struct PutRecord {
    pub piece: Vec<u8>,
    pub took: usize,
}

/// A sink in memory that tells its calls. A piece longer than `longest` is a fault too, and is not told.
#[derive(Drop)]
pub struct RecordingSink {
    inner: MemSink,
    records: Vec<PutRecord>,
    spare: Vec<Vec<u8>>,
    longest: usize,
    puts: u64,
    faults: u64,
    ghost reserved: { vec_len records + vec_len spare ≤ vec_capacity records },
    ghost empty: { All (λ v. (v.items ≡ []) × (longest ≤ vec_capacity v)) spare.items },
}

impl RecordingSink {
    /// It has memory for `most` calls with pieces of up to `longest` bytes.
    pub fn new(
        alloc: Global,
        inner: MemSink,
        most: usize,
        longest: usize,
    ) -> Result<RecordingSink, NoMemory>
        ensures { IfOk result (λ s. (s.inner ≡ inner) × (s.records.items ≡ []) × (vec_len s.spare ≡ most) × (s.longest ≡ longest) × (s.puts ≡ 0) × (s.faults ≡ 0)) }
    {
        let records = Vec::with_capacity(alloc, most)?;
        let spare = empty_pieces(alloc, most, longest)?;
        Ok(RecordingSink {
            inner,
            records,
            spare,
            longest,
            puts: 0,
            faults: 0,
        })
    }

    /// The calls so far.
    pub fn records(&self) -> &[PutRecord]
        ensures { result.now ≡ self.now.records.items }
    {
        self.records.as_slice()
    }

    /// The bytes that it holds.
    pub fn bytes(&self) -> &[u8]
        ensures { result.now ≡ self.now.inner.held }
    {
        self.inner.bytes()
    }
}

impl Sink for RecordingSink {
    ghost use Rattle.std.specs.Prelude.{map, Some};

    ghost held = { λ s. Some s.inner.held };

    ghost faults = { λ s. s.faults };

    ghost puts = { λ s. s.puts };

    ghost calls = { λ s. Some (map (λ r. record { piece = r.piece.items; took = r.took }) s.records.items) };

    ghost room = { λ _. 0 };

    fn put(&mut self, piece: &[u8]) -> Put {
        self.puts = self.puts.saturating_add(1);
        if self.longest < piece.len() || self.spare.is_empty() {
            self.faults = self.faults.saturating_add(1);
            return Put::Failed;
        }
        let copy = copied_into(self.spare.pop().unwrap(), piece);
        let answer = self.inner.put(piece);
        let took = match answer {
            Put::Took(amount) => amount,
            Put::Failed => {
                self.faults = self.faults.saturating_add(1);
                0
            }
        };
        self.records.push(PutRecord { piece: copy, took }).unwrap();
        answer
    }
}

/// Empty pieces with memory for `longest` bytes each.
fn empty_pieces(alloc: Global, most: usize, longest: usize) -> Result<Vec<Vec<u8>>, NoMemory>
    ensures { IfOk result (λ pieces. (vec_len pieces ≡ most)
        × All (λ v. (v.items ≡ []) × (longest ≤ vec_capacity v)) pieces.items) }
{
    let mut pieces = Vec::new(alloc);
    'fill: for _ in 0..most {
        pieces.push(Vec::with_capacity(alloc, longest)?)?;
    }
    Ok(pieces)
}

/// The text, in memory that was reserved for it.
fn copied_into(mut empty: Vec<u8>, text: &[u8]) -> Vec<u8>
    requires empty { empty.items ≡ [] }
    requires room { length text.now ≤ vec_capacity empty }
    ensures { result.items ≡ text.now }
{
    empty.extend_from_slice(text).unwrap();
    empty
}
