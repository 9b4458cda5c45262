//! The state of a text on its way.

use ossl_aes::Block;
use ossl_blocks::Buffer;
use ossl_ghash::HashKey;

/// The counter and the hash: `counter` is the counter block of the next block, `hash` is GHASH so far, `mask` is the
/// first counter block encrypted, and `aad_bits` the additional data's length in bits.
#[derive(Drop)]
pub struct Stream<C: Block> {
    pub(crate) cipher: C,
    pub(crate) key: HashKey,
    pub(crate) mask: [u8; 16],
    pub(crate) aad_bits: u64,
    pub(crate) counter: [u8; 16],
    pub(crate) hash: u128,
}

/// A plaintext on its way: `len` is how many bytes of ciphertext were given. It holds back less than a block.
#[derive(Drop)]
pub struct Sealer<C: Block> {
    pub(crate) stream: Stream<C>,
    pub(crate) buffer: Buffer<16, 0>,
    pub(crate) len: u64,
}

/// A ciphertext on its way, which is held whole until its tag is checked. Nothing is held before the first feed.
#[derive(Drop)]
pub struct Opener<C: Block> {
    pub(crate) stream: Stream<C>,
    pub(crate) held: Option<Vec<u8>>,
}

/// Either of them.
#[derive(Drop)]
pub enum Side<C: Block> {
    Encryption(Sealer<C>),
    Decryption(Opener<C>),
}

/// A text on its way through Galois/Counter mode.
#[derive(Drop)]
pub struct Gcm<C: Block> {
    pub(crate) side: Side<C>,
}
