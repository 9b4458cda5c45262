//! The words of the key schedule (FIPS 197, 5.2).

ghost use Rattle.std.specs.Prelude.{◌≡◌, ◌/◌, ◌<◌, ◌≤◌};
ghost use Rattle.std.specs.Int.{w32, to_be_bytes};
ghost use Rattle.ossl_aes.specs.Cipher.{sub_word, temp_word};
ghost use Rattle.ossl_aes.specs.Rounds.{inv_mixed_column};

use crate::rounds::{dec_column, sub};
use crate::tables::ROUND_CONSTANTS;

fn sub_word(w: u32) -> u32
    ensures { result ≡ sub_word w }
{
    let [a, b, c, d] = w.to_be_bytes();
    u32::from_be_bytes([sub(a), sub(b), sub(c), sub(d)])
}

/// What is added to the word `i - nk` for the word `i`, `last` being the word before it.
pub fn temp_word(nk: usize, i: usize, last: u32) -> u32
    requires size { 0 < nk }
    requires after { nk ≤ i }
    requires few { i / nk ≤ 10 }
    ensures { result ≡ temp_word nk i last }
{
    if i % nk == 0 {
        sub_word(last.rotate_left(8)) ^ (ROUND_CONSTANTS[i / nk - 1] as u32 * 0x100_0000)
    } else if nk == 8 && i % nk == 4 {
        sub_word(last)
    } else {
        last
    }
}

/// The word's column times the inverse matrix: the tables of the inverse cipher undo the S-box first.
pub fn inv_mixed_word(w: u32) -> u32
    ensures { to_be_bytes w32 result ≡ inv_mixed_column w }
{
    let [a, b, c, d] = w.to_be_bytes();
    dec_column(sub(a), sub(b), sub(c), sub(d))
}
