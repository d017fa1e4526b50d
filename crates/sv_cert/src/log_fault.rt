use std::alloc::AllocError;
use thiserror::Error;

/// Why a text isn't read as a log.
#[derive(Clone, Copy, Debug, PartialEq, Eq, Drop, Error)]
pub enum LogFault {
    /// The line of this number is the first that is no entry.
    #[error("line {0} is no entry")]
    LogSyntax(u32),
    /// The line of this number states a version that isn't known.
    #[error("line {0} has a version that isn't known")]
    LogVersion(u32),
    /// Memory ran out.
    #[error("out of memory")]
    NoMemory,
}

impl From<AllocError> for LogFault {
    ghost use Rattle.std.specs.Prelude.{◌≡◌};
    ghost use Rattle.sv_cert.specs.declared.log_fault.LogFault.TheVariants.{NoMemory};

    ghost from_gives = { λ _ e. e ≡ NoMemory };

    fn from(_e: AllocError) -> LogFault {
        LogFault::NoMemory
    }
}
