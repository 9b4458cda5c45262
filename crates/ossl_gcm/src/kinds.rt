//! The refusals.

/// An IV of no bytes or of more than 128.
#[derive(Clone, Copy, Debug, PartialEq, Eq)]
pub struct IvLength {
    pub got: u64,
}

/// Why a text cannot end where it does.
#[derive(Clone, Copy, Debug, PartialEq, Eq)]
pub enum GcmRefused {
    /// A decryption's text does not end in the tag of what is before it.
    BadTag,
    /// The ciphertext is longer than this many blocks.
    StreamEnd { blocks: u64 },
    /// Memory was refused.
    NoMemory,
}
