//! The hash subkey, and GHASH under it.

ghost use Rattle.std.specs.Prelude.{◌≡◌, ℕ, ◌/◌, ◌%◌, ◌<◌, List, length, slice_index};
ghost use Rattle.ossl_ghash.specs.Ghash.{product, hash_from, filled};
ghost use Rattle.ossl_ghash.specs.Nibbles.{multiples_of};

use crate::field::{halved, halved_4};
use std::marker::Model;

/// A hash subkey, as its multiples by the numbers of four bits.
#[derive(Drop)]
pub struct HashKey {
    multiples: [u128; 16],
}

// Clauses see the subkey, the block as a big-endian number.
impl Model for HashKey {
    ghost Value = { ℕ };

    ghost view = { λ k. slice_index k.multiples 8 };

    ghost invariant = { λ k. k.multiples ≡ multiples_of (slice_index k.multiples 8) };
}

// The multiples of a subkey.
fn multiples_of(key: u128) -> [u128; 16]
    ensures { result ≡ multiples_of key }
{
    let h8 = key;
    let h4 = halved(h8);
    let h2 = halved(h4);
    let h1 = halved(h2);
    let (h3, h5, h6) = (h2 ^ h1, h4 ^ h1, h4 ^ h2);
    let h7 = h4 ^ h3;
    [
        0,
        h1,
        h2,
        h3,
        h4,
        h5,
        h6,
        h7,
        h8,
        h8 ^ h1,
        h8 ^ h2,
        h8 ^ h3,
        h8 ^ h4,
        h8 ^ h5,
        h8 ^ h6,
        h8 ^ h7,
    ]
}

impl HashKey {
    /// The subkey, a block as a big-endian number.
    pub fn new(key: u128) -> Self
        ensures { result ≡ key }
    {
        HashKey {
            multiples: multiples_of(key),
        }
    }

    /// The product of a block and the subkey, four bits at a time from the right.
    #[inline(always)]
    pub fn product(&self, x: u128) -> u128
        ensures { result ≡ product x self.now }
    {
        let mut sum = 0;
        let mut rest = x;
        'byte: for i in 0..16u32 {
            let byte = (rest % 256) as usize;
            let half = halved_4(sum) ^ self.multiples[byte % 16];
            sum = halved_4(half) ^ self.multiples[byte / 16];
            rest /= 256;
        }
        sum
    }

    /// Whole blocks hashed, from a value on.
    pub fn hash_blocks(&self, value: u128, bytes: &[u8]) -> u128
        requires { length bytes.now % 16 ≡ 0 }
        ensures { result ≡ hash_from self.now value bytes.now }
    {
        let mut hash = value;
        'block: for i in 0..bytes.len() / 16 {
            let mut block = [0; 16];
            block.copy_from_slice(&bytes[16 * i..16 * i + 16]);
            let next = self.product(hash ^ u128::from_be_bytes(block));
            hash = next;
        }
        hash
    }

    /// A text hashed, from a value on, filled with zeros to whole blocks.
    pub fn hash_text(&self, value: u128, bytes: &[u8]) -> u128
        ensures { result ≡ hash_from self.now value (filled bytes.now) }
    {
        let (blocks, rest) = bytes.split_at(bytes.len() / 16 * 16);
        let hash = self.hash_blocks(value, blocks);
        if rest.is_empty() {
            return hash;
        }
        let mut last = [0; 16];
        last[..rest.len()].copy_from_slice(rest);
        self.product(hash ^ u128::from_be_bytes(last))
    }
}
