//! A text's start, its whole blocks, and its tag.

ghost use Rattle.std.specs.Prelude.{◌≡◌, ℕ, ◌+◌, ◌%◌, ◌≤◌, length, vec_len, vec_capacity};
ghost use Rattle.ossl_gcm.specs.Gcm.{first_counter};
ghost use Rattle.ossl_gcm.specs.Run.{started, blocks_of, moved_on, tag_of};

use crate::counter::{Counter, next_counter};
use crate::state::Stream;
use ossl_aes::{Block, number_block, xor_blocks};
use ossl_blocks::BlockTaker;
use ossl_ghash::HashKey;
use ossl_modes::{append_within, each_through};

// The first counter block of an IV.
fn first_counter(key: &HashKey, iv: &[u8]) -> [u8; 16]
    requires { length iv.now ≤ 128 }
    ensures { result ≡ first_counter key.now iv.now }
{
    if iv.len() == 12 {
        let mut block = [0, 0, 0, 0, 0, 0, 0, 0, 0, 0, 0, 0, 0, 0, 0, 1];
        block[..12].copy_from_slice(iv);
        block
    } else {
        let hash = key.hash_text(0, iv);
        number_block(key.product(hash ^ (8 * iv.len()) as u128))
    }
}

impl<C: Block> Stream<C> {
    /// The start of a text with additional data.
    pub fn start(cipher: C, iv: &[u8], aad: &[u8]) -> Self
        requires { length iv.now ≤ 128 }
        ensures { result ≡ started C.enc cipher iv.now aad.now }
    {
        let key = HashKey::new(u128::from_be_bytes(cipher.encrypt([0; 16])));
        let first = first_counter(&key, iv);
        let mask = cipher.encrypt(first);
        let hash = key.hash_text(0, aad);
        Stream {
            cipher,
            key,
            mask,
            aad_bits: (aad.len() as u64).wrapping_mul(8),
            counter: next_counter(first),
            hash,
        }
    }

    // Whole blocks of plaintext, in place: each becomes its ciphertext, which is hashed where it stands.
    fn through_all(&mut self, room: &mut [u8])
        requires whole { length room.old % 16 ≡ 0 }
        ensures gives { room.new ≡ blocks_of C.enc self.old room.old }
        ensures next { self.new ≡ moved_on C.enc self.old room.old room.new }
    {
        each_through::<Counter, C>(&self.cipher, &mut self.counter, room);
        self.hash = self.key.hash_blocks(self.hash, room);
    }

    /// The tag where the rest of the ciphertext, of `len` bytes in all, is not hashed yet.
    pub fn tag(&self, len: u64, rest: &[u8]) -> [u8; 16]
        ensures { result ≡ tag_of self.now len rest.now }
    {
        let hash = self.key.hash_text(self.hash, rest);
        let high = 0x1_0000_0000_0000_0000;
        let lengths = u128::from(self.aad_bits) * high + u128::from(len.wrapping_mul(8));
        xor_blocks(self.mask, number_block(self.key.product(hash ^ lengths)))
    }
}

impl<C: Block> BlockTaker<16> for Stream<C> {
    ghost use Rattle.ossl_gcm.specs.Run.{HasSealed};
    ghost use Rattle.ossl_gcm.specs.Laws.{sealed_nothing};

    type Out = Vec<u8>;

    ghost has_room = { λ out n. vec_len out + n ≤ vec_capacity out };

    ghost taken = { λ stream out bytes after new. HasSealed C.enc stream out.items bytes after new.items };

    // They are appended first, and then encrypted and hashed where they stand.
    fn take(&mut self, first: &[u8], rest: &[u8], out: &mut Vec<u8>) {
        let start = out.len();
        append_within(out, first);
        append_within(out, rest);
        self.through_all(out.slice_mut(start..));
    }

    ghost nothing = { λ stream out. sealed_nothing C.enc stream out.items };
}
