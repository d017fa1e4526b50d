ghost use Rattle.std.specs.Prelude.{◌≡◌, IfOk};
ghost use Rattle.sv_report.specs.Refusals.{error_text, place_of};

use std::alloc::Global;
use std::fmt;
use sv_text::{NoMemory, Place};

/// Why a text is refused, in the order in which reasons count.
#[derive(Clone, Copy, Debug, PartialEq, Eq)]
pub enum Refusal {
    /// It is over the limit.
    Long,
    /// Its first fault is a byte that can't stand there.
    Char(Place),
    /// Its first fault is a comment, a string or a pragma that doesn't end.
    Unclosed(Place),
    /// It has too many tokens; this is the place of the first that is too many.
    Many(Place),
    /// A token is left out; this is the place of the first.
    Out(Place),
    /// A token is nested too deeply, or too far behind the beginning of its statement; this is the place of the first.
    Deep(Place),
    /// Its tokens have no tree; this is the place of the first token with which no tree goes on, or the end of the text.
    Syntax(Place),
    /// It doesn't have the form that is read.
    Unbuilt,
}

impl Refusal {
    /// The place of the refusal. That of a text that is refused as a whole is its first byte.
    fn place(&self) -> Place
        ensures { result ≡ place_of self.now }
    {
        match self {
            Refusal::Long | Refusal::Unbuilt => Place { line: 1, col: 1 },
            Refusal::Char(place)
            | Refusal::Unclosed(place)
            | Refusal::Many(place)
            | Refusal::Out(place)
            | Refusal::Deep(place)
            | Refusal::Syntax(place) => *place,
        }
    }
}

impl fmt::Display for Refusal {
    ghost use Rattle.std.specs.Prelude.{Some};
    ghost use Rattle.sv_report.specs.Refusals.{kind_text};

    ghost output = { λ r. Some (kind_text r) };

    fn fmt<W: fmt::Write>(&self, f: &mut fmt::Formatter<W>) -> fmt::Result {
        f.write_str(match self {
            Refusal::Long => "Long",
            Refusal::Char(_) => "Char",
            Refusal::Unclosed(_) => "Unclosed",
            Refusal::Many(_) => "Many",
            Refusal::Out(_) => "Out",
            Refusal::Deep(_) => "Deep",
            Refusal::Syntax(_) => "Syntax",
            Refusal::Unbuilt => "Unbuilt",
        })
    }
}

/// The error line of a refusal.
pub fn error_line(alloc: Global, refusal: Refusal) -> Result<Vec<u8>, NoMemory>
    ensures { IfOk result (λ line. line.items ≡ error_text refusal) }
{
    let Place { line, col } = refusal.place();
    let text = format!(in alloc; "error {line}:{col} {refusal}\n")?;
    Ok(Vec::from_slice(alloc, text.as_bytes())?)
}
