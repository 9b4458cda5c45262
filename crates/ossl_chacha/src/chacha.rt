ghost use Rattle.std.specs.Prelude.{◌≡◌, ℕ, ◌+◌, ◌%◌, ◌<◌, ◌≤◌, List, [], ◌++◌, OnOk, OnErr, length, max, take, drop};
ghost use Rattle.ossl_chacha.specs.KeyStream.{blocks_of, stream_len, stream_of, text_from, text_of, xored};

use crate::generator::generator_of;
use rand_chacha::ChaCha20Rng;
use rand_core::utils::{fill_bytes_via_u32, read_u32};
use std::alloc::AllocError;
use std::marker::Model;

// The bytes of a block, and of the four blocks that the generator makes at once.
const BLOCK: usize = 64;

const RUN: usize = 256;

/// A message that needs more than the `blocks` blocks of 64 bytes that its key stream has.
#[derive(Clone, Copy, Debug, PartialEq, Eq)]
pub struct StreamEnd {
    pub blocks: u64,
}

/// A ChaCha20 stream. Encryption and decryption are the same.
#[derive(Drop)]
pub struct ChaCha {
    key: [u8; 32],
    iv: [u8; 16],
    generator: ChaCha20Rng,
    // The block that is used in part, where one is.
    held: [u8; 64],
    // The bytes used. As wide as this, it lays the generator's words at a multiple of 16 bytes, where vectors are
    // stored at once.
    used: u128,
    is_over: bool,
}

impl Model for ChaCha {
    ghost use Rattle.ossl_chacha.specs.KeyStream.{ChaChaState};
    ghost use Rattle.ossl_chacha.specs.Generator.{IsInStep};

    ghost Value = { ChaChaState };

    ghost view = { λ c. record { key = c.key; iv = c.iv; used = c.used; is_over = c.is_over } };

    ghost invariant = { λ c. IsInStep c.key c.iv c.held c.used c.generator };
}

// Xors the stream into the text.
fn xor(text: &mut [u8], stream: &[u8])
    requires { length text.old ≤ length stream.now }
    ensures { text.new ≡ xored text.old stream.now }
{
    let front = &stream[..text.len()];
    for (i, byte) in text.iter_mut().enumerate() {
        *byte ^= front[i];
    }
}

// How many bytes are drawn at once for a text of so many: four blocks, or one where the text has less than these.
fn drawn_len(text: usize) -> usize
    ensures whole { result % 64 ≡ 0 }
    ensures some { 64 ≤ result }
    ensures within { result ≤ 256 }
    ensures fits { result ≤ max 64 text }
{
    if text >= RUN { RUN } else { BLOCK }
}

impl ChaCha {
    ghost use Rattle.ossl_chacha.specs.Ends.{chacha20, end_of, outcome_of};

    /// The stream of a key and an IV: the counter of the first block, 32 bits and little-endian, and then the 96-bit
    /// nonce. It takes no memory.
    pub fn new(key: [u8; 32], iv: [u8; 16]) -> Self
        ensures start { result ≡ stream_of key iv }
        ensures whole { (bytes : List ℕ) → outcome_of result bytes ≡ chacha20 key iv bytes }
    {
        ChaCha {
            key,
            iv,
            generator: generator_of(key, iv),
            held: [0; BLOCK],
            used: 0,
            is_over: false,
        }
    }

    // How many bytes of the key stream are left.
    fn left(&self) -> u64
        ensures { self.now.used + result ≡ stream_len self.now.iv }
    {
        BLOCK as u64 * self.blocks() - self.used as u64
    }

    // How many blocks the key stream has.
    fn blocks(&self) -> u64
        ensures { result ≡ blocks_of self.now.iv }
    {
        (1 << 32) - u64::from(read_u32(&self.iv, 0))
    }

    // Xors what is left of the current block into the text's first bytes, and says how many these are.
    fn crypt_held(&mut self, text: &mut [u8]) -> usize
        requires in_block { 0 < self.old.used % 64 }
        requires some { 0 < length text.old }
        requires fits { self.old.used + length text.old ≤ stream_len self.old.iv }
        ensures some { 0 < result }
        ensures count { result ≤ length text.old }
        ensures text { text.new ≡ text_from self.old.key self.old.iv self.old.used (take result text.old)
            ++ drop result text.old }
        ensures used { self.new ≡ record self.old { used = self.old.used + result } }
    {
        let at = (self.used % 64) as usize;
        let count = text.len().min(BLOCK - at);
        xor(&mut text[..count], &self.held[at..]);
        self.used += count as u128;
        count
    }

    // Xors the next blocks into the text's first bytes, and says how many these are. Four blocks are drawn at once,
    // into the room apart from the text, so that a processor need not wait for single words that it has just stored.
    // The last is held.
    fn crypt_drawn(&mut self, text: &mut [u8], room: &mut [u8; 256]) -> usize
        requires at_block { self.old.used % 64 ≡ 0 }
        requires some { 0 < length text.old }
        requires fits { self.old.used + length text.old ≤ stream_len self.old.iv }
        ensures some { 0 < result }
        ensures count { result ≤ length text.old }
        ensures text { text.new ≡ text_from self.old.key self.old.iv self.old.used (take result text.old)
            ++ drop result text.old }
        ensures used { self.new ≡ record self.old { used = self.old.used + result } }
    {
        let size = drawn_len(text.len());
        let drawn = &mut room[..size];
        fill_bytes_via_u32(&mut self.generator, drawn);
        let count = text.len().min(size);
        xor(&mut text[..count], drawn);
        self.held.copy_from_slice(&drawn[size - BLOCK..]);
        self.used += count as u128;
        count
    }

    // Xors some of the key stream's next bytes into the text's first bytes, and says how many these are.
    fn crypt_front(&mut self, text: &mut [u8], room: &mut [u8; 256]) -> usize
        requires some { 0 < length text.old }
        requires fits { self.old.used + length text.old ≤ stream_len self.old.iv }
        ensures some { 0 < result }
        ensures count { result ≤ length text.old }
        ensures text { text.new ≡ text_from self.old.key self.old.iv self.old.used (take result text.old)
            ++ drop result text.old }
        ensures used { self.new ≡ record self.old { used = self.old.used + result } }
    {
        if self.used % 64 == 0 {
            self.crypt_drawn(text, room)
        } else {
            self.crypt_held(text)
        }
    }

    // Xors the key stream's next bytes into the text.
    fn crypt(&mut self, text: &mut [u8])
        requires { self.old.used + length text.old ≤ stream_len self.old.iv }
        ensures text { text.new ≡ text_from self.old.key self.old.iv self.old.used text.old }
        ensures used { self.new ≡ record self.old { used = self.old.used + length text.old } }
    {
        let mut room = [0; RUN];
        let mut done = 0;
        while done < text.len() {
            done += self.crypt_front(&mut text[done..], &mut room);
        }
    }

    /// Appends the text of the bytes, as far as the key stream reaches: past its last block it gives nothing. Where
    /// memory is refused, the stream and `out` are as they were.
    pub fn feed(&mut self, bytes: &[u8], out: &mut Vec<u8>) -> Result<(), AllocError>
        ensures appended { OnOk result (out.new.items ≡ out.old.items ++ text_of self.old bytes.now) }
        ensures goes_on { OnOk result
            ((rest : List ℕ) → text_of self.old (bytes.now ++ rest) ≡ text_of self.old bytes.now
            ++ text_of self.new rest) }
        ensures end { OnOk result ((rest : List ℕ) → end_of self.old (bytes.now ++ rest) ≡ end_of self.new rest) }
        ensures unchanged { OnErr result ((self.new ≡ self.old) × (out.new.items ≡ out.old.items)) }
    {
        let left = self.left();
        let is_longer = bytes.len() as u64 > left;
        let count = if is_longer {
            left as usize
        } else {
            bytes.len()
        };
        let start = out.len();
        out.extend_from_slice(&bytes[..count])?;
        self.crypt(out.slice_mut(start..));
        self.is_over = self.is_over || is_longer;
        Ok(())
    }

    /// The end of the message. It is refused where more bytes were fed than the key stream has. It takes no memory.
    pub fn finish(self) -> Result<(), StreamEnd>
        ensures { result ≡ end_of self [] }
    {
        if self.is_over {
            return Err(StreamEnd {
                blocks: self.blocks(),
            });
        }
        Ok(())
    }
}
