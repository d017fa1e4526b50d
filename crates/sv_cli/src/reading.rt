//! What is due by what a source gives.

ghost use Rattle.std.specs.Prelude.{◌≡◌, ◌≢◌, ◌+◌, ◌≤◌, IfOk, IsErrOf};
ghost use Rattle.sv_io.specs.Moves.{Rose};
ghost use Rattle.sv_cli.specs.Answered.{IsDueFrom};
ghost use Rattle.sv_io.specs.Moved.{GivesRooms};
ghost use Rattle.sv_lex.specs.Lexing.{limit};

use crate::due::due;
use std::alloc::Global;
use sv_io::{ReadError, Source, read_up_to};
use sv_report::Ended;

/// What is due by what a source gives, and how the program ends where it is written.
pub fn due_from<S: Source>(
    alloc: Global,
    source: &mut S,
    most: usize,
) -> Result<(Vec<u8>, Ended), ReadError>
    requires { most ≡ limit + 1 }
    ensures due { IfOk result (λ due. IsDueFrom (S.left source.old) (S.left source.new) due.0.items due.1) }
    ensures cause { IsErrOf result ReadError.Fault → Rose (S.faults source.old) (S.faults source.new) }
    ensures counted { S.takes source.new ≤ S.takes source.old + most + 1 }
    ensures rooms { GivesRooms most (S.calls source.old) (S.calls source.new) }
    ensures sure { S.is_sure source.old → result ≢ Err ReadError.Fault }
{
    let text = read_up_to(alloc, source, most)?;
    match due(alloc, &text) {
        Ok(due) => Ok(due),
        Err(_) => Err(ReadError::NoMemory),
    }
}
