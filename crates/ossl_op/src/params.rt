//! What an operation is given, and why it may not begin.

use ossl_base::Bytes;
use ossl_codes::{Direction, KdfMode, Param};

/// The parameters of an operation. A code passes over those that it has no use for.
#[derive(Drop)]
pub struct Params {
    /// Which way a cipher runs.
    pub direction: Direction,
    /// Whether ECB and CBC pad the last block.
    pub pad: bool,
    /// The key, or for HKDF the key material.
    pub key: Option<Bytes>,
    /// The initial value; for ChaCha20 the counter and then the nonce.
    pub iv: Option<Bytes>,
    /// HKDF's salt. An absent one is empty.
    pub salt: Option<Bytes>,
    /// HKDF's info. An absent one is empty.
    pub info: Option<Bytes>,
    /// Which of HKDF's steps are taken.
    pub mode: KdfMode,
    /// How many bytes HKDF is to give.
    pub len: Option<u64>,
}

/// Why an operation may not begin. The checks are made in this order.
#[derive(Clone, Copy, Debug, PartialEq, Eq)]
pub enum BeginRefused {
    /// The code needs a parameter that is not there.
    MissingParam { which: Param },
    /// HMAC and HKDF run on a digest, CMAC on AES in CBC mode, and the inner code is another one.
    WrongInner,
    /// The code takes no key of this many bytes.
    KeyLength { got: u64 },
    /// The code takes no IV of this many bytes.
    IvLength { got: u64 },
    /// HKDF was asked for more than `limit` bytes, which is 255 times the hash length.
    TooLong { limit: u64 },
    /// There is no memory for it.
    NoMemory,
}
