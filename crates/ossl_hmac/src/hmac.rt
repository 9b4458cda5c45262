ghost use Rattle.std.specs.Prelude.{◌≡◌, ◌≤◌, ℕ, List, [], ◌++◌, length, map, bit_xor};
ghost use Rattle.ossl_digests.specs.declared.hash.Hash.{Hash as TheHash};
ghost use Rattle.ossl_digests.specs.Digest.{block_len, output_len};
ghost use Rattle.ossl_digests.specs.Holds.{Holds as HoldsBytes};
ghost use Rattle.ossl_hmac.specs.Hmac.{filled_key, hmac};

use ossl_digests::{Digester, Hash, HashValue};

/// The longest block of a hash in bytes.
const LONGEST_BLOCK: usize = 128;

// The bytes of the inner and of the outer pad (FIPS 198-1, 3).
const INNER_PAD: u8 = 0x36;

const OUTER_PAD: u8 = 0x5C;

/// The keyed-hash message authentication code of bytes that come in pieces.
///
/// Contracts see its hash, its key and the list of the bytes fed, as `Holds mac hash key bytes`.
#[derive(Drop)]
pub struct Hmac {
    // Fed the key with the inner pad, and then the bytes.
    inner: Digester,
    // Fed the key with the outer pad.
    outer: Digester,
}

// A digester that was fed the key, filled to a block, and xored with a pad.
fn keyed(hash: Hash, key: &[u8], pad: u8) -> Digester
    requires { length key.now ≤ block_len hash }
    ensures { HoldsBytes result hash (map (λ byte. bit_xor pad byte) (filled_key hash key.now)) }
{
    let mut block = [pad; LONGEST_BLOCK];
    for i in 0..key.len() {
        block[i] = pad ^ key[i];
    }
    let mut digester = Digester::new(hash);
    digester.feed(&block[..hash.block_len()]);
    digester
}

impl Hmac {
    ghost use Rattle.ossl_hmac.specs.Holds.{Holds};

    /// An HMAC under a key, of any length, that was fed nothing.
    pub fn new(hash: Hash, key: &[u8]) -> Hmac
        ensures { Holds result hash key.now [] }
    {
        if key.len() > hash.block_len() {
            let mut digester = Digester::new(hash);
            digester.feed(key);
            Hmac::of_short_key(hash, digester.finish().as_slice())
        } else {
            Hmac::of_short_key(hash, key)
        }
    }

    // An HMAC under a key of at most a block.
    fn of_short_key(hash: Hash, key: &[u8]) -> Hmac
        requires { length key.now ≤ block_len hash }
        ensures inner { HoldsBytes result.inner hash (map (λ byte. bit_xor 0x36 byte) (filled_key hash key.now)) }
        ensures outer { HoldsBytes result.outer hash (map (λ byte. bit_xor 0x5C byte) (filled_key hash key.now)) }
    {
        Hmac {
            inner: keyed(hash, key, INNER_PAD),
            outer: keyed(hash, key, OUTER_PAD),
        }
    }

    /// Takes more bytes in.
    pub fn feed(&mut self, bytes: &[u8])
        ensures { (hash : TheHash) (key fed : List ℕ) → Holds self.old hash key fed
            → Holds self.new hash key (fed ++ bytes.now) }
    {
        self.inner.feed(bytes);
    }

    /// The code of all bytes fed.
    pub fn finish(self) -> HashValue
        ensures code { (hash : TheHash) (key fed : List ℕ) → Holds self hash key fed → result ≡ hmac hash key fed }
        ensures length { (hash : TheHash) (key fed : List ℕ) → Holds self hash key fed
            → length result ≡ output_len hash }
    {
        let Hmac { inner, mut outer } = self;
        outer.feed(inner.finish().as_slice());
        outer.finish()
    }

    /// The code of all bytes fed and a text, which leaves the HMAC as it is.
    pub fn code_of(&self, text: &[u8]) -> HashValue
        ensures code { (hash : TheHash) (key fed : List ℕ) → Holds self.now hash key fed →
            result ≡ hmac hash key (fed ++ text.now) }
        ensures length { (hash : TheHash) (key fed : List ℕ) → Holds self.now hash key fed →
            length result ≡ output_len hash }
    {
        let mut inner = self.inner.copy();
        inner.feed(text);
        let mut outer = self.outer.copy();
        outer.feed(inner.finish().as_slice());
        outer.finish()
    }

    /// An HMAC under the same key that was fed the same bytes.
    pub fn copy(&self) -> Hmac
        ensures { result ≡ self.now }
    {
        Hmac {
            inner: self.inner.copy(),
            outer: self.outer.copy(),
        }
    }
}
