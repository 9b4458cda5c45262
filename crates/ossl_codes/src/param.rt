/// Which way a cipher runs.
#[derive(Clone, Copy, Debug, PartialEq, Eq)]
pub enum Direction {
    Encrypt,
    Decrypt,
}

/// Which of its two steps HKDF runs (RFC 5869, section 2).
#[derive(Clone, Copy, Debug, PartialEq, Eq)]
pub enum KdfMode {
    Both,
    Extract,
    Expand,
}

/// A parameter that an operation may need before it begins.
#[derive(Clone, Copy, Debug, PartialEq, Eq)]
pub enum Param {
    Key,
    Iv,
    /// The digest or cipher that a MAC or a key derivation runs on.
    Inner,
    Len,
}
