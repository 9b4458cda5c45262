//! A value that is being read.

ghost use Rattle.std.specs.Prelude.{◌≡◌, ◌≤◌, ◌++◌, ℕ, List, [], length, OnOk};
ghost use Rattle.ossl_conf.specs.Private.{IsSoFar};

use std::alloc::{AllocError, Global};

/// The greatest length of a value.
pub(crate) const MOST_VALUE: usize = 65_535;

/// The bytes of a value so far. They are kept only while they are not too many, so that a value takes no more memory
/// than it may have.
#[derive(Drop)]
pub(crate) struct Value {
    pub bytes: Vec<u8>,
    pub is_long: bool,
}

impl Value {
    /// A value of no bytes.
    pub fn new(alloc: Global) -> Value
        ensures { IsSoFar result.bytes.items result.is_long [] }
    {
        Value {
            bytes: Vec::new(alloc),
            is_long: false,
        }
    }

    /// Appends the bytes of a part.
    pub fn put(&mut self, piece: &[u8]) -> Result<(), AllocError>
        ensures { (value : List ℕ) → IsSoFar self.old.bytes.items self.old.is_long value →
            OnOk result (IsSoFar self.new.bytes.items self.new.is_long (value ++ piece.now)) }
    {
        if self.is_long {
            return Ok(());
        }
        if self.bytes.len() > MOST_VALUE || piece.len() > MOST_VALUE - self.bytes.len() {
            self.is_long = true;
            return Ok(());
        }
        self.bytes.extend_from_slice(piece)
    }
}
