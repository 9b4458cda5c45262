ghost use Rattle.std.specs.Prelude.{◌≡◌};
ghost use Rattle.ossl_core.specs.declared.denied.Denied.TheVariants.{NoMemory};

use ossl_calls::Reply;
use std::alloc::AllocError;

/// Why a call handed out nothing.
#[derive(Drop)]
pub enum Denied {
    /// The registry's reply, which says why.
    By(Reply),
    /// There was no memory for the call, and it was not made.
    NoMemory,
}

impl From<AllocError> for Denied {
    ghost from_gives = { λ _ denied. denied ≡ NoMemory };

    fn from(_error: AllocError) -> Denied {
        Denied::NoMemory
    }
}
