ghost use Rattle.std.specs.Prelude.{◌≡◌, ◌≢◌, ◌+◌, ◌^◌, ◌<◌, ◌≤◌, length, IfOk, OnOk, OnErr, IsErrOf, vec_len};
ghost use Rattle.sv_io.specs.Moves.{Rose};
ghost use Rattle.sv_io.specs.Moved.{GivesPieces, GivesRooms, IsCutShort, IsWritten, ReadsUpTo};

use crate::sink::{Put, Sink};
use crate::source::{Source, Taken};
use std::alloc::{AllocError, Global};
use thiserror::Error;

/// How many bytes of room a source is given at most.
const ROOM: usize = 4096;

/// Why nothing was read.
#[derive(Clone, Copy, Debug, PartialEq, Eq, Drop, Error)]
pub enum ReadError {
    /// The source failed.
    #[error("the source failed")]
    Fault,
    /// Memory ran out.
    #[error("out of memory")]
    NoMemory,
}

impl From<AllocError> for ReadError {
    ghost use Rattle.std.specs.Prelude.{◌≡◌};
    ghost use Rattle.sv_io.specs.declared.moving.ReadError.TheVariants.{NoMemory};

    ghost from_gives = { λ _ e. e ≡ NoMemory };

    fn from(_e: AllocError) -> ReadError {
        ReadError::NoMemory
    }
}

/// Reads to the end of a source, or that many bytes of it where it has more.
pub fn read_up_to<S: Source>(
    alloc: Global,
    source: &mut S,
    most: usize,
) -> Result<Vec<u8>, ReadError>
    requires { most < 2 ^ 63 }
    ensures bytes { IfOk result (λ v. ReadsUpTo most (S.left source.old) (S.left source.new) v.items) }
    ensures within { IfOk result (λ v. vec_len v ≤ most) }
    ensures faults { S.faults source.old ≤ S.faults source.new }
    ensures cause { IsErrOf result ReadError.Fault → Rose (S.faults source.old) (S.faults source.new) }
    ensures counted { S.takes source.new ≤ S.takes source.old + most + 1 }
    ensures rooms { GivesRooms most (S.calls source.old) (S.calls source.new) }
    ensures sure { S.is_sure source.old → (result ≢ Err ReadError.Fault) × S.is_sure source.new }
{
    let mut bytes = Vec::new(alloc);
    let mut room = [0u8; ROOM];
    while bytes.len() < most {
        let want = (most - bytes.len()).min(ROOM);
        match source.take(&mut room[..want]) {
            Taken::Got(amount) => bytes.extend_from_slice(&room[..amount])?,
            Taken::End => return Ok(bytes),
            Taken::Failed => return Err(ReadError::Fault),
        }
    }
    Ok(bytes)
}

/// The sink failed.
#[derive(Clone, Copy, Debug, PartialEq, Eq, Drop, Error)]
#[error("the sink failed")]
pub struct SinkFailed;

/// Puts a whole text, or what a sink takes of it before it fails.
pub fn put_all<K: Sink>(sink: &mut K, text: &[u8]) -> Result<(), SinkFailed>
    ensures whole { OnOk result (IsWritten (K.held sink.old) (K.held sink.new) text.now) }
    ensures cut { OnErr result (IsCutShort (K.held sink.old) (K.held sink.new) text.now) }
    ensures faults { K.faults sink.old ≤ K.faults sink.new }
    ensures cause { OnErr result (Rose (K.faults sink.old) (K.faults sink.new)) }
    ensures counted { K.puts sink.new ≤ K.puts sink.old + length text.now }
    ensures pieces { GivesPieces text.now (K.calls sink.old) (K.calls sink.new) }
    ensures room { OnErr result (K.room sink.old < length text.now) }
{
    let mut rest = text;
    while !rest.is_empty() {
        match sink.put(rest) {
            Put::Took(amount) => rest = &rest[amount..],
            Put::Failed => return Err(SinkFailed),
        }
    }
    Ok(())
}
