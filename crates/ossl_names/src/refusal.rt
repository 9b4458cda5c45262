ghost use Rattle.std.specs.Prelude.{◌≡◌};
ghost use Rattle.ossl_names.specs.declared.refusal.AddRefused.TheVariants.{NoMemory};

use std::alloc::{AllocError, AllocFailed};

/// The place of a group in its list plus one, so it begins at 1.
pub type Number = u64;

/// Why names were not added.
#[derive(Clone, Copy, Debug, PartialEq, Eq)]
pub enum AddRefused {
    /// A name is empty, is longer than 99 bytes, or has a byte that is not visible.
    BadName,
    /// Names of two groups: the number of the first known name, and that of the first later one that differs.
    Conflict { first: Number, second: Number },
    NoMemory,
}

impl From<AllocError> for AddRefused {
    ghost from_gives = { λ _ refused. refused ≡ NoMemory };

    fn from(_error: AllocError) -> AddRefused {
        AddRefused::NoMemory
    }
}
