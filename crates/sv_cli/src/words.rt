ghost use Rattle.std.specs.Prelude.{◌≡◌, ◌≢◌, drop};
ghost use Rattle.std.specs.declared.io.ErrorKind.TheVariants.{OutOfMemory};
ghost use Rattle.sv_report.specs.declared.ended.Ended.TheVariants.{NoMemory, Usage};

use std::{env, io};
use sv_report::Ended;

/// The words behind the first, which is the program's own name.
fn behind_name(mut words: Vec<String>) -> Vec<String>
    ensures { result.items ≡ drop 1 words.items }
{
    if !words.is_empty() {
        let _name = words.remove(0);
    }
    words
}

/// How the program ends where the system doesn't hand over the words: memory ran out, or a word isn't a text.
fn refused_words(cause: io::ErrorKind) -> Ended
    ensures memory { cause ≡ OutOfMemory → result ≡ NoMemory }
    ensures other { cause ≢ OutOfMemory → result ≡ Usage }
{
    if cause == io::ErrorKind::OutOfMemory {
        Ended::NoMemory
    } else {
        Ended::Usage
    }
}

/// The words of the command line, without the program's own name.
pub fn words(rt: &HostRuntime) -> Result<Vec<String>, Ended> {
    match env::args(rt) {
        Ok(words) => match words.collect(rt.alloc()) {
            Ok(words) => Ok(behind_name(words)),
            Err(_) => Err(Ended::NoMemory),
        },
        Err(refused) => Err(refused_words(refused.kind())),
    }
}
