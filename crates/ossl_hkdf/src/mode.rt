/// The steps that are taken.
#[derive(Clone, Copy, Debug, PartialEq, Eq)]
pub enum HkdfMode {
    /// Extract and then expand.
    Both,
    /// A pseudorandom key alone (RFC 5869, 2.2). The length is passed over.
    Extract,
    /// Expansion alone (RFC 5869, 2.3): the key is the pseudorandom key, and the salt is passed over.
    Expand,
}

/// Why no bytes were given.
#[derive(Debug, Drop)]
pub enum HkdfRefused {
    /// More bytes were asked for than `limit`, which is 255 times the hash length (RFC 5869, 2.3).
    TooLong { limit: u64 },
    /// There is no memory for them.
    NoMemory,
}
