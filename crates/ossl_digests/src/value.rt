ghost use Rattle.std.specs.Prelude.{◌≡◌, ◌≤◌, length};

use std::marker::Model;

/// A digest: at most 64 bytes, which contracts see as a list.
#[derive(Drop)]
pub struct HashValue {
    bytes: [u8; 64],
    len: usize,
}

impl Model for HashValue {
    ghost use Rattle.std.specs.Prelude.{ℕ, List, ◌≤◌, take};

    ghost Value = { List ℕ };

    ghost view = { λ v. take v.len v.bytes };

    ghost invariant = { λ v. v.len ≤ 64 };
}

impl HashValue {
    #[inline(always)]
    pub(crate) fn of(digest: &[u8]) -> HashValue
        requires { length digest.now ≤ 64 }
        ensures { result ≡ digest.now }
    {
        let len = digest.len();
        let mut bytes = [0; 64];
        bytes[..len].copy_from_slice(digest);
        HashValue { bytes, len }
    }

    /// The bytes of the digest.
    pub fn as_slice(&self) -> &[u8]
        ensures value { result.now ≡ self.now }
        ensures bound { length self.now ≤ 64 }
    {
        &self.bytes[..self.len]
    }
}
