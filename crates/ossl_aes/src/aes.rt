//! The cipher with its key.

ghost use Rattle.std.specs.Prelude.{◌≡◌, ℕ, ◌+◌, ◌*◌, ◌≤◌, List, [], ◌∷◌, length, slice_index};
ghost use Rattle.ossl_aes.specs.Cipher.{schedule, cipher, inv_cipher};
ghost use Rattle.ossl_aes.specs.Rounds.{AreInvMixed};
ghost use Rattle.ossl_aes.specs.State.{IsSize};

use crate::block::Block;
use crate::columns::{add, load, store, word};
use crate::rounds::{dec_last, dec_round, enc_last, enc_round};
use crate::schedule::{inv_mixed_word, temp_word};
use std::marker::Model;

/// AES with a key of `NK` words, expanded to `WORDS` words: `Aes<4, 44>`, `Aes<6, 52>` or `Aes<8, 60>`.
#[derive(Drop)]
pub struct Aes<const NK: usize, const WORDS: usize> {
    words: [u32; WORDS],
    inv_words: [u32; WORDS],
}

// Clauses see the key schedule. The words times the inverse matrix serve decryption.
impl<const NK: usize, const WORDS: usize> Model for Aes<NK, WORDS> {
    ghost Value = { List ℕ };

    ghost view = { λ a. a.words };

    ghost invariant = { λ a. IsSize NK WORDS × AreInvMixed WORDS a.words a.inv_words };
}

#[inline(always)]
fn round_key(words: &[u32], n: usize) -> [u32; 4]
    requires { 4 * n + 4 ≤ length words.now }
    ensures { result ≡ slice_index words.now (4 * n) ∷ slice_index words.now (4 * n + 1)
        ∷ slice_index words.now (4 * n + 2) ∷ slice_index words.now (4 * n + 3) ∷ [] }
{
    [
        words[4 * n],
        words[4 * n + 1],
        words[4 * n + 2],
        words[4 * n + 3],
    ]
}

impl<const NK: usize, const WORDS: usize> Aes<NK, WORDS> {
    /// The cipher with the key, of 16, 24 or 32 bytes: FIPS 197's key schedule.
    pub fn expand(key: &[u8]) -> Self
        requires size { IsSize NK WORDS }
        requires fits { length key.now ≡ 4 * NK }
        ensures { result ≡ schedule NK key.now (3 * NK + 28) }
    {
        let mut words = [0; WORDS];
        'key: for i in 0..NK {
            words[i] = word(key, 4 * i);
        }
        'more: for i in NK..WORDS {
            words[i] = words[i - NK] ^ temp_word(NK, i, words[i - 1]);
        }
        let mut inv_words = [0; WORDS];
        'inverse: for i in 0..WORDS {
            inv_words[i] = inv_mixed_word(words[i]);
        }
        Aes { words, inv_words }
    }
}

impl<const NK: usize, const WORDS: usize> Block for Aes<NK, WORDS> {
    ghost enc = { λ a block. cipher a (NK + 6) block };

    ghost dec = { λ a block. inv_cipher a (NK + 6) block };

    #[inline(always)]
    fn encrypt(&self, block: [u8; 16]) -> [u8; 16] {
        let mut s = add(load(&block), round_key(&self.words, 0));
        'round: for n in 1..NK + 6 {
            let next = enc_round(s, round_key(&self.words, n));
            s = next;
        }
        store(enc_last(s, round_key(&self.words, NK + 6)))
    }

    #[inline(always)]
    fn decrypt(&self, block: [u8; 16]) -> [u8; 16] {
        let mut s = add(load(&block), round_key(&self.words, NK + 6));
        'round: for n in 1..NK + 6 {
            let next = dec_round(s, round_key(&self.inv_words, NK + 6 - n));
            s = next;
        }
        store(dec_last(s, round_key(&self.words, 0)))
    }
}
