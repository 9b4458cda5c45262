//! Why nothing is run.

ghost use Rattle.std.specs.Prelude.{◌≡◌};
ghost use Rattle.ossl_prepare.specs.declared.refused.Refused.TheVariants.{NoMemory};

use crate::error_line::ErrorLine;
use std::alloc::{AllocError, AllocFailed};

/// Why a batch is not run.
#[derive(Drop)]
pub enum Refused {
    /// The first error in the order of the checks.
    Error(ErrorLine),
    /// Memory was refused, which says nothing of the batch.
    NoMemory,
}

impl From<AllocError> for Refused {
    ghost from_gives = { λ _ e. e ≡ NoMemory };

    fn from(_e: AllocError) -> Refused {
        Refused::NoMemory
    }
}

impl<T: Drop> From<AllocFailed<T>> for Refused {
    ghost from_gives = { λ _ e. e ≡ NoMemory };

    fn from(_e: AllocFailed<T>) -> Refused {
        Refused::NoMemory
    }
}
