ghost use Rattle.std.specs.Prelude.{◌≡◌, ◌+◌, ◌≤◌, ◌⊎◌, ◌↔◌, List, ℕ, Some};
ghost use Rattle.sv_io.specs.Moves.{Rose};
ghost use Rattle.sv_cli.specs.Answered.{Answered, IsCut, IsDueWithin, IsListed, IsWhole, Sank, texts};
ghost use Rattle.sv_cli.specs.Headline.{HoldsTruly};
ghost use Rattle.sv_io.specs.Moved.{GivesRooms};
ghost use Rattle.sv_lex.specs.Lexing.{limit};

use crate::reading::due_from;
use std::alloc::Global;
use sv_io::{ReadError, Sink, Source, put_all};
use sv_report::Ended;
use sv_term::RuleBook;

/// The most bytes of a text.
const LIMIT: usize = 1_048_576;

/// The program: the words of the command line, a source to read, a sink to write to, and the book of rules.
pub fn solsv<S: Source, K: Sink>(
    alloc: Global,
    words: &Vec<String>,
    source: &mut S,
    sink: &mut K,
    book: &RuleBook,
) -> Ended
    // Words that are not taken: nothing is read or written.
    ensures usage { (result ≡ Ended.Usage) ↔ (IsListed (texts words.now) → ⊥) }
    ensures untouched { result ≡ Ended.Usage → (source.new ≡ source.old) × (sink.new ≡ sink.old) }

    // A fault of reading, and want of memory: nothing is written.
    ensures read_fault { result ≡ Ended.ReadFault → Rose (S.faults source.old) (S.faults source.new) × (sink.new ≡ sink.old) }
    ensures no_memory { result ≡ Ended.NoMemory → sink.new ≡ sink.old }

    // A fault of writing: a front of what was due is written.
    ensures write_fault { result ≡ Ended.WriteFault → IsCut (S.left source.old) (S.left source.new)
        (record { held = K.held sink.old; puts = K.puts sink.old; faults = K.faults sink.old; calls = K.calls sink.old })
        (record { held = K.held sink.new; puts = K.puts sink.new; faults = K.faults sink.new; calls = K.calls sink.new }) }

    // Any other answer: it is the one for the text that was read, and what was due is written whole.
    ensures answered { IsWhole result → Answered (S.left source.old) (S.left source.new)
        (record { held = K.held sink.old; puts = K.puts sink.old; faults = K.faults sink.old; calls = K.calls sink.old })
        (record { held = K.held sink.new; puts = K.puts sink.new; faults = K.faults sink.new; calls = K.calls sink.new }) result }

    // Each line `C: holds` that is written is true of every history of the contract C.
    ensures headline { HoldsTruly (S.left source.old) (S.left source.new) (K.held sink.old) (K.held sink.new) }

    // Over a source that never fails and a sink with room for what is due, the answer is the text's own, or want of memory.
    ensures complete { IsListed (texts words.now) → S.is_sure source.old → (text : List ℕ) → S.left source.old ≡ Some text
        → IsDueWithin text (K.room sink.old) → IsWhole result ⊎ (result ≡ Ended.NoMemory) }

    // The calls of the source: how many at most, and the room that each is given.
    ensures takes { S.takes source.new ≤ S.takes source.old + limit + 2 }
    ensures rooms { GivesRooms (limit + 1) (S.calls source.old) (S.calls source.new) }
{
    let _ = book;
    if !words.is_empty() {
        return Ended::Usage;
    }
    let (due, ended) = match due_from(alloc, source, LIMIT + 1) {
        Ok(due) => due,
        Err(ReadError::Fault) => return Ended::ReadFault,
        Err(ReadError::NoMemory) => return Ended::NoMemory,
    };
    match put_all(sink, &due) {
        Ok(()) => ended,
        Err(_) => Ended::WriteFault,
    }
}
