//! Where bytes come from and where they go: a source and a sink, both in memory, and adapters over std's streams.
//!
//! Promises: what each call of `take` and `put` moves, told by ghost members of the two traits: the bytes left or held, the
//! faults, the calls, and whether a later call can fail. `MemSource` and `MemSink` answer exactly as their plan of
//! piece, room and failing calls says.
//!
//! Stands on: `sv_text` for `NoMemory`, and std's `Read` and `Write`, whose streams need not behave.
//!
//! Read first: `source.rt`, `specs/Moves.antt`, then `mem_source.rt`.
#![tactic(auto)]

mod adapters;
mod mem_sink;
mod mem_source;
mod moving;
mod sink;
mod source;

pub use adapters::{StdSink, StdSource};
pub use mem_sink::MemSink;
pub use mem_source::MemSource;
pub use moving::{ReadError, SinkFailed, put_all, read_up_to};
pub use sink::{Put, Sink};
pub use source::{Source, Taken};
