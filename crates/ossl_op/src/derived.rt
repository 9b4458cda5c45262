//! What HKDF gives at the end.

/// The bytes of a key derivation, which are worked out where it begins.
#[derive(Drop)]
pub(crate) struct Derived {
    pub(crate) bytes: Vec<u8>,
}
