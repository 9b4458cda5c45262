//! The modes, and the refusals of a text's end.

/// A mode of operation (SP 800-38A): Electronic Codebook, Cipher Block Chaining, Cipher Feedback of whole blocks,
/// Output Feedback, Counter.
#[derive(Clone, Copy, Debug, PartialEq, Eq)]
pub enum ModeKind {
    Ecb,
    Cbc,
    Cfb,
    Ofb,
    Ctr,
}

/// Why a text cannot end where it does.
#[derive(Clone, Copy, Debug, PartialEq, Eq)]
pub enum FinishRefused {
    /// The text's length has this rest modulo 16 and the mode wants whole blocks; with rest 0, a padded text is empty.
    WrongFinalBlock { rest: u64 },
    /// The last block does not end in a padding.
    BadDecrypt,
    /// A key stream of this many blocks does not reach to the end: no mode of this crate answers so.
    StreamEnd { blocks: u64 },
    /// Memory was refused.
    NoMemory,
}
