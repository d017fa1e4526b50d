use std::alloc::{AllocError, AllocFailed};
use sv_text::NoMemory;
use thiserror::Error;

/// Why a text isn't read as a contract.
#[derive(Clone, Copy, Debug, PartialEq, Eq, Drop, Error)]
pub enum FormError {
    /// The text doesn't have the form that is read.
    #[error("not of the form that is read")]
    Unbuilt,
    /// Memory ran out.
    #[error("out of memory")]
    NoMemory,
}

impl From<NoMemory> for FormError {
    ghost use Rattle.std.specs.Prelude.{◌≡◌};
    ghost use Rattle.sv_first_form.specs.declared.form_error.FormError.TheVariants.{NoMemory};

    ghost from_gives = { λ _ e. e ≡ NoMemory };

    fn from(_e: NoMemory) -> FormError {
        FormError::NoMemory
    }
}

impl From<AllocError> for FormError {
    ghost use Rattle.std.specs.Prelude.{◌≡◌};
    ghost use Rattle.sv_first_form.specs.declared.form_error.FormError.TheVariants.{NoMemory};

    ghost from_gives = { λ _ e. e ≡ NoMemory };

    fn from(_e: AllocError) -> FormError {
        FormError::NoMemory
    }
}

impl<T: Drop> From<AllocFailed<T>> for FormError {
    ghost use Rattle.std.specs.Prelude.{◌≡◌};
    ghost use Rattle.sv_first_form.specs.declared.form_error.FormError.TheVariants.{NoMemory};

    ghost from_gives = { λ _ e. e ≡ NoMemory };

    fn from(_e: AllocFailed<T>) -> FormError {
        FormError::NoMemory
    }
}
