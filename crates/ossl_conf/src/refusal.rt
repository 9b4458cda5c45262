//! Why a configuration is refused.

ghost use Rattle.std.specs.Prelude.{◌≡◌};
ghost use Rattle.ossl_conf.specs.declared.refusal.ConfRefused.TheVariants.{NoMemory};

use crate::kind::ConfKind;
use ossl_base::{FileRefusal, Text};
use std::alloc::{AllocError, AllocFailed};

/// Why a configuration is refused. The first refused line or file is the answer; the settings are read only where
/// there is none.
#[derive(Drop)]
pub enum ConfRefused {
    /// The logical line that begins at the line of this number, counted from 1 in the file that holds it, cannot be
    /// read.
    Line { number: u64, kind: ConfKind },
    /// A value of the line names a variable that is not set, has an empty name, or lacks its closing bracket. The name
    /// is as written.
    NoVariable { number: u64, name: Text },
    /// A section is named that was neither opened nor set into.
    NoSection { name: Text },
    /// An `activate` is neither on nor off.
    BadActivate { word: Text },
    /// `default_properties` is no query; the place is that of its first fault.
    BadQuery { place: u64 },
    /// The file of this name, which is to be included, could not be read, or has more bytes than are left of the
    /// limit. It is never want of memory.
    File { name: Text, refusal: FileRefusal },
    /// There is no memory for it.
    NoMemory,
}

impl From<AllocError> for ConfRefused {
    ghost from_gives = { λ _ e. e ≡ NoMemory };

    fn from(_e: AllocError) -> ConfRefused {
        ConfRefused::NoMemory
    }
}

impl<T: Drop> From<AllocFailed<T>> for ConfRefused {
    ghost from_gives = { λ _ e. e ≡ NoMemory };

    fn from(_e: AllocFailed<T>) -> ConfRefused {
        ConfRefused::NoMemory
    }
}
