// The answers of each source and sink, over inputs whose answers were worked by hand.
ghost use Rattle.std.specs.Prelude.{◌-◌, ◌^◌, ◌<◌, ◌≤◌, All};

use crate::recording::{RecordingSink, RecordingSource, TakeRecord};
use std::alloc::Global;
use std::io::{self, Error, ErrorKind, Read, Write};
use std::process::Abort;
use std::test::Fail;
use sv_io::{MemSink, MemSource, Put, Sink, Source, StdSink, StdSource, Taken};
use sv_text::NoMemory;

const TEXT: &[u8; 40] = b"0123456789abcdefghijklmnopqrstuvwxyz!?.;";

fn source(alloc: Global, piece: usize, fails: &[u64]) -> Result<MemSource, NoMemory>
    requires piece { 1 ≤ piece }
    requires fails { All (λ k. k < 2 ^ 64 - 1) fails.now }
{
    let bytes = Vec::from_slice(alloc, TEXT)?;
    let fails = Vec::from_slice(alloc, fails)?;
    Ok(MemSource::new(bytes, piece, fails))
}

fn sink(alloc: Global, room: usize, piece: usize, fails: &[u64]) -> Result<MemSink, NoMemory>
    requires piece { 1 ≤ piece }
    requires fails { All (λ k. k < 2 ^ 64 - 1) fails.now }
{
    let fails = Vec::from_slice(alloc, fails)?;
    MemSink::new(alloc, room, piece, fails)
}

/// Takes with a buffer of `room` bytes, and compares each answer, and all bytes in the end.
fn expect_taken<S: Source>(
    rt: &(impl Abort + AllocGlobal),
    source: &mut S,
    room: usize,
    answers: &[Taken],
    text: &[u8],
) -> Result<(), NoMemory>
    requires some { 1 ≤ room }
    requires within { room ≤ 64 }
{
    let mut buffer = [0u8; 64];
    let mut bytes = Vec::new(rt.alloc());
    for want in answers {
        let answer = source.take(&mut buffer[..room]);
        assert_eq!(rt; answer, *want);
        if let Taken::Got(amount) = answer {
            bytes.extend_from_slice(&buffer[..amount])?;
        }
    }
    assert_eq!(rt; bytes.as_slice(), text);
    Ok(())
}

/// Puts the text again and again, and compares each answer.
fn expect_put<K: Sink>(rt: &impl Abort, sink: &mut K, answers: &[Put]) {
    for want in answers {
        let answer = sink.put(TEXT);
        assert_eq!(rt; answer, *want);
    }
}

#[test]
fn sources_in_memory(rt: HostRuntime) -> Result<(), Fail> {
    use Taken::{End, Failed, Got};
    let alloc = rt.alloc();
    let answers = [Got(16), Failed, Got(16), Got(8), End, End];
    expect_taken(&rt, &mut source(alloc, 16, &[2])?, 64, &answers, TEXT)?;
    let answers = [Got(10), Got(10), Got(10), Got(10), End];
    expect_taken(&rt, &mut source(alloc, 16, &[])?, 10, &answers, TEXT)?;
    let answers = [Failed, Got(40), End, Failed, End];
    expect_taken(&rt, &mut source(alloc, 64, &[1, 4])?, 64, &answers, TEXT)?;
    Ok(())
}

#[test]
fn sinks_in_memory(rt: HostRuntime) -> Result<(), Fail> {
    use Put::{Failed, Took};
    let alloc = rt.alloc();

    let mut with_a_fault = sink(alloc, 100, 16, &[2])?;
    let answers = [Took(16), Failed, Took(16), Took(16)];
    expect_put(&rt, &mut with_a_fault, &answers);
    assert_eq!(rt;
        with_a_fault.bytes(),
        b"0123456789abcdef0123456789abcdef0123456789abcdef".as_slice()
    );

    let mut soon_full = sink(alloc, 20, 16, &[])?;
    expect_put(&rt, &mut soon_full, &[Took(16), Took(4), Failed, Failed]);
    assert_eq!(rt; soon_full.bytes(), b"0123456789abcdef0123".as_slice());

    let mut with_no_room = sink(alloc, 0, 1, &[])?;
    expect_put(&rt, &mut with_no_room, &[Failed]);
    assert_eq!(rt; with_no_room.bytes(), b"".as_slice());
    Ok(())
}

/// It fails at each second read.
#[derive(Drop)]
struct Flaky {
    fails_next: bool,
}

impl Read for Flaky {
    fn read(&mut self, buf: &mut [u8]) -> io::Result<usize> {
        self.fails_next = !self.fails_next;
        if self.fails_next || buf.is_empty() {
            return Err(Error::from(ErrorKind::BrokenPipe));
        }
        buf[0] = b'x';
        Ok(1)
    }
}

/// It takes all bytes, and fails to flush them.
#[derive(Drop)]
struct Unflushed {}

impl Write for Unflushed {
    fn write(&mut self, buf: &[u8]) -> io::Result<usize> {
        Ok(buf.len())
    }

    fn flush(&mut self) -> io::Result<()> {
        Err(Error::from(ErrorKind::BrokenPipe))
    }
}

#[test]
fn adapters(rt: HostRuntime) -> Result<(), Fail> {
    use Taken::{End, Failed, Got};
    let mut reader = StdSource::new(b"hello world".as_slice());
    let answers = [Got(4), Got(4), Got(3), End, End];
    expect_taken(&rt, &mut reader, 4, &answers, b"hello world")?;
    let mut flaky = StdSource::new(Flaky { fails_next: false });
    expect_taken(&rt, &mut flaky, 4, &[Failed, Got(1), Failed], b"x")?;

    let mut written = Vec::new(rt.alloc());
    expect_put(&rt, &mut StdSink::new(&mut written), &[Put::Took(40)]);
    assert_eq!(rt; written.as_slice(), TEXT.as_slice());
    let mut page = [0u8; 3];
    let answers = [Put::Took(3), Put::Failed];
    expect_put(&rt, &mut StdSink::new(page.as_mut_slice()), &answers);
    assert_eq!(rt; page, *b"012");
    expect_put(&rt, &mut StdSink::new(Unflushed {}), &[Put::Failed]);
    Ok(())
}

#[test]
fn recordings(rt: HostRuntime) -> Result<(), Fail> {
    use Taken::{Failed, Got};
    let alloc = rt.alloc();

    let mut told = RecordingSource::new(alloc, source(alloc, 16, &[2])?, 3)?;
    let answers = [Got(10), Failed, Got(10), Failed];
    expect_taken(&rt, &mut told, 10, &answers, b"0123456789abcdefghij")?;
    let record = |got| TakeRecord { room: 10, got };
    assert_eq!(rt;
        told.records(),
        [record(10), record(0), record(10)].as_slice()
    );

    let mut told = RecordingSink::new(alloc, sink(alloc, 20, 16, &[2])?, 4, 40)?;
    let answers = [
        Put::Took(16),
        Put::Failed,
        Put::Took(4),
        Put::Failed,
        Put::Failed,
    ];
    expect_put(&rt, &mut told, &answers);
    assert_eq!(rt; told.bytes(), b"0123456789abcdef0123".as_slice());
    assert_eq!(rt; told.records().len(), 4);
    for (record, took) in told.records().iter().zip([16, 0, 4, 0]) {
        assert_eq!(rt; record.piece.as_slice(), TEXT.as_slice());
        assert_eq!(rt; record.took, took);
    }
    Ok(())
}
