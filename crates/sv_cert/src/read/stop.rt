use std::alloc::{AllocError, AllocFailed};
use thiserror::Error;

/// Why a line isn't read as an entry.
#[derive(Clone, Copy, Debug, PartialEq, Eq, Drop, Error)]
pub enum Stop {
    /// It is no entry.
    #[error("no entry")]
    NoEntry,
    /// Memory ran out.
    #[error("out of memory")]
    NoMemory,
}

impl From<AllocError> for Stop {
    ghost use Rattle.std.specs.Prelude.{◌≡◌};
    ghost use Rattle.sv_cert.specs.declared.read.stop.Stop.TheVariants.{NoMemory};

    ghost from_gives = { λ _ e. e ≡ NoMemory };

    fn from(_e: AllocError) -> Stop {
        Stop::NoMemory
    }
}

impl<T: Drop> From<AllocFailed<T>> for Stop {
    ghost use Rattle.std.specs.Prelude.{◌≡◌};
    ghost use Rattle.sv_cert.specs.declared.read.stop.Stop.TheVariants.{NoMemory};

    ghost from_gives = { λ _ e. e ≡ NoMemory };

    fn from(_e: AllocFailed<T>) -> Stop {
        Stop::NoMemory
    }
}
