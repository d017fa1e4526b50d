ghost use Rattle.std.specs.Prelude.{◌+◌, ◌<◌, ◌^◌, length};
ghost use Rattle.sv_cert.specs.LogAnswers.{ReadsLog};

use crate::log::Log;
use crate::log_fault::LogFault;
use crate::read::cut::cut;
use crate::read::entry::entry;
use crate::read::stop::Stop;
use sqlite_items::Items;
use std::alloc::Global;

/// The version of the format that is read.
const VERSION: u32 = 1;

/// The log whose text this is, its lines numbered from `first`. The line before them states the version.
pub fn read_log(alloc: Global, text: &[u8], first: u32, version: u32) -> Result<Log, LogFault>
    requires counted { 0 < first }
    requires fits { first + length text.now < 2 ^ 32 }
    ensures { ReadsLog text.now first version result }
{
    if version != VERSION {
        return Err(LogFault::LogVersion(first - 1));
    }
    let mut entries = Items::new(alloc);
    let mut rest = text;
    let mut number = first;
    while !rest.is_empty() {
        let (line, behind) = cut(rest, b'\n');
        let Some(behind) = behind else {
            return Err(LogFault::LogSyntax(number));
        };
        match entry(alloc, line) {
            Ok(entry) => entries.push(entry)?,
            Err(Stop::NoEntry) => return Err(LogFault::LogSyntax(number)),
            Err(Stop::NoMemory) => return Err(LogFault::NoMemory),
        }
        rest = behind;
        number += 1;
    }
    Ok(Log { entries })
}
