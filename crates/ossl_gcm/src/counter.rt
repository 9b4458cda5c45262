//! The counter, and a text xored with what the cipher makes of it (SP 800-38D, 6.2 and 6.5).

ghost use Rattle.std.specs.Prelude.{◌≡◌, ◌<◌, length};
ghost use Rattle.ossl_aes.specs.Cipher.{add};
ghost use Rattle.ossl_gcm.specs.Gcm.{next_counter, counted};

use ossl_aes::{Block, xor_blocks};
use ossl_modes::{Step, each_through};

/// The counter block after a counter block: its last four bytes are increased by 1, and the others stay.
#[inline(always)]
pub fn next_counter(v: [u8; 16]) -> [u8; 16]
    ensures { result ≡ next_counter v }
{
    let [
        x0,
        x1,
        x2,
        x3,
        x4,
        x5,
        x6,
        x7,
        x8,
        x9,
        x10,
        x11,
        c0,
        c1,
        c2,
        c3,
    ] = v;
    let last = u32::from_be_bytes([c0, c1, c2, c3]).wrapping_add(1);
    let [d0, d1, d2, d3] = last.to_be_bytes();
    [
        x0, x1, x2, x3, x4, x5, x6, x7, x8, x9, x10, x11, d0, d1, d2, d3,
    ]
}

/// The mode block by block, the same in both directions.
pub struct Counter;

impl Step for Counter {
    ghost out = { λ e d v b. add b (e v) };

    ghost next = { λ e v b. next_counter v };

    #[inline(always)]
    fn step<C: Block>(cipher: &C, value: &mut [u8; 16], block: [u8; 16]) -> [u8; 16] {
        // The next counter is stored before the cipher's work, so that it is in memory when the next block asks for it.
        let counter = *value;
        *value = next_counter(counter);
        xor_blocks(block, cipher.encrypt(counter))
    }
}

// A short last block, in place.
fn through_rest<C: Block>(cipher: &C, counter: [u8; 16], rest: &mut [u8])
    requires { length rest.old < 16 }
    ensures { rest.new ≡ add rest.old (C.enc cipher.now counter) }
{
    let mut block = [0; 16];
    block[..rest.len()].copy_from_slice(rest);
    let text = xor_blocks(block, cipher.encrypt(counter));
    rest.copy_from_slice(&text[..rest.len()]);
}

/// A whole text, in place, from a counter block on. The last block may be short.
pub fn through<C: Block>(cipher: &C, counter: [u8; 16], text: &mut [u8])
    ensures { text.new ≡ counted (C.enc cipher.now) counter text.old }
{
    let mut value = counter;
    let whole = text.len() / 16 * 16;
    each_through::<Counter, C>(cipher, &mut value, &mut text[..whole]);
    if whole < text.len() {
        through_rest(cipher, value, &mut text[whole..]);
    }
}
