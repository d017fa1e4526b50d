ghost use Rattle.sv_lex.specs.Limits.{HasNo, IsDeep};

use crate::parts::print_behind;
use anyhow::Error;
use sv_ast::Note;
use sv_lex::Tokens;
use sv_notes::read_notes;
use sv_text::Names;

/// Prints each annotation line's word, bytes and place, and how many tokens were read.
pub fn print_notes(rt: &HostRuntime, tokens: &Tokens<'_>) -> Result<(), Error>
    requires { HasNo IsDeep tokens.now.list }
{
    let mut names = Names::new(rt.alloc());
    let read = read_notes(rt.alloc(), tokens, 0, &mut names);
    if let Ok((notes, _)) = &read {
        for note in notes.as_slice() {
            print_note(rt, note, &names)?;
        }
    }
    print_behind(rt, read)
}

fn print_note(rt: &HostRuntime, note: &Note, names: &Names) -> Result<(), Error> {
    for word in ["invariant", "precondition", "postcondition"] {
        if names.find(word.as_bytes()) == Some(note.word) {
            print!(rt; "{word}")?;
        }
    }
    let (span, place) = (note.span, note.place);
    print!(rt; " {}-{} {}:{}, ", span.from, span.to, place.line, place.col)?;
    Ok(())
}
