ghost use Rattle.std.specs.Prelude.{◌≡◌, ℕ, List, [], ◌++◌, length};
ghost use Rattle.ossl_digests.specs.declared.hash.Hash.{Hash as TheHash};
ghost use Rattle.ossl_digests.specs.Digest.{digest, output_len};

use crate::hash::Hash;
use crate::state::Md4;
use crate::value::HashValue;
use md5::{Digest as _, Md5};
use sha1::Sha1;
use sha2::{Digest as _, Sha224, Sha256, Sha384, Sha512, Sha512_224, Sha512_256};

// The state of each hash.
#[derive(Drop)]
enum State {
    Sha1(Sha1),
    Sha224(Sha224),
    Sha256(Sha256),
    Sha384(Sha384),
    Sha512(Sha512),
    Sha512t224(Sha512_224),
    Sha512t256(Sha512_256),
    Md5(Md5),
    Md4(Md4),
}

impl State {
    ghost use Rattle.ossl_digests.specs.Holds.{hash_of, HoldsBytes};

    // The digest of all bytes fed.
    #[inline(always)]
    fn finish(self) -> HashValue
        ensures { (fed : List ℕ) → HoldsBytes self fed → result ≡ digest (hash_of self) fed }
    {
        match self {
            State::Sha1(s) => HashValue::of(&s.finalize()),
            State::Sha224(s) => HashValue::of(&s.finalize()),
            State::Sha256(s) => HashValue::of(&s.finalize()),
            State::Sha384(s) => HashValue::of(&s.finalize()),
            State::Sha512(s) => HashValue::of(&s.finalize()),
            State::Sha512t224(s) => HashValue::of(&s.finalize()),
            State::Sha512t256(s) => HashValue::of(&s.finalize()),
            State::Md5(s) => HashValue::of(&s.finalize()),
            State::Md4(s) => HashValue::of(&s.finish()),
        }
    }
}

/// A hash function at work: it is fed bytes in any pieces, and gives the digest of them all.
///
/// Contracts see its hash and the list of the bytes fed, as `Holds digester hash bytes`.
#[derive(Drop)]
pub struct Digester(State);

impl Digester {
    ghost use Rattle.ossl_digests.specs.Holds.{Holds};

    /// A digester that was fed nothing.
    pub fn new(hash: Hash) -> Digester
        ensures { Holds result hash [] }
    {
        match hash {
            Hash::Sha1 => Digester(State::Sha1(Sha1::new())),
            Hash::Sha224 => Digester(State::Sha224(Sha224::new())),
            Hash::Sha256 => Digester(State::Sha256(Sha256::new())),
            Hash::Sha384 => Digester(State::Sha384(Sha384::new())),
            Hash::Sha512 => Digester(State::Sha512(Sha512::new())),
            Hash::Sha512t224 => Digester(State::Sha512t224(Sha512_224::new())),
            Hash::Sha512t256 => Digester(State::Sha512t256(Sha512_256::new())),
            Hash::Md5 => Digester(State::Md5(Md5::new())),
            Hash::Md4 => Digester(State::Md4(Md4::new())),
        }
    }

    /// Takes more bytes in.
    pub fn feed(&mut self, bytes: &[u8])
        ensures { (hash : TheHash) (fed : List ℕ) → Holds self.old hash fed → Holds self.new hash (fed ++ bytes.now) }
    {
        match &mut self.0 {
            State::Sha1(s) => s.update(bytes),
            State::Sha224(s) => s.update(bytes),
            State::Sha256(s) => s.update(bytes),
            State::Sha384(s) => s.update(bytes),
            State::Sha512(s) => s.update(bytes),
            State::Sha512t224(s) => s.update(bytes),
            State::Sha512t256(s) => s.update(bytes),
            State::Md5(s) => s.update(bytes),
            State::Md4(s) => s.feed(bytes),
        }
    }

    /// The digest of all bytes fed.
    #[inline(always)]
    pub fn finish(self) -> HashValue
        ensures digest { (hash : TheHash) (fed : List ℕ) → Holds self hash fed → result ≡ digest hash fed }
        ensures length { (hash : TheHash) (fed : List ℕ) → Holds self hash fed → length result ≡ output_len hash }
    {
        self.0.finish()
    }

    /// A digester that was fed the same bytes.
    pub fn copy(&self) -> Digester
        ensures { result ≡ self.now }
    {
        match &self.0 {
            State::Sha1(s) => Digester(State::Sha1(s.clone().unwrap())),
            State::Sha224(s) => Digester(State::Sha224(s.clone().unwrap())),
            State::Sha256(s) => Digester(State::Sha256(s.clone().unwrap())),
            State::Sha384(s) => Digester(State::Sha384(s.clone().unwrap())),
            State::Sha512(s) => Digester(State::Sha512(s.clone().unwrap())),
            State::Sha512t224(s) => Digester(State::Sha512t224(s.clone().unwrap())),
            State::Sha512t256(s) => Digester(State::Sha512t256(s.clone().unwrap())),
            State::Md5(s) => Digester(State::Md5(s.clone().unwrap())),
            State::Md4(s) => Digester(State::Md4(*s)),
        }
    }
}
