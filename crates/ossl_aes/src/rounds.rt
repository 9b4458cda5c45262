//! The rounds of the cipher on four words that hold the state, a column each, top row in the highest byte. A column is
//! summed from its bottom row up: the lowest byte of a word is got in one step, so the sum begins with what is there
//! first.

ghost use Rattle.std.specs.Prelude.{◌≡◌, ◌<◌, List, [], ◌∷◌};
ghost use Rattle.std.specs.Int.{w32, to_be_bytes};
ghost use Rattle.ossl_aes.specs.Field.{sub, unsub};
ghost use Rattle.ossl_aes.specs.Cipher.{column, enc_word, dec_word};
ghost use Rattle.ossl_aes.specs.Rounds.{state_of, round, last_round, inv_round, last_inv_round};

use crate::tables::{DEC, ENC, SUB, SUB_WORDS, UNSUB, UNSUB_WORDS};

/// The byte's image under the S-box (FIPS 197, 5.1.1).
#[inline(always)]
pub fn sub(byte: u8) -> u8
    ensures { result ≡ sub byte }
{
    SUB[byte as usize]
}

/// The byte's image under the inverse S-box (FIPS 197, 5.3.2).
#[inline(always)]
pub fn unsub(byte: u8) -> u8
    ensures { result ≡ unsub byte }
{
    UNSUB[byte as usize]
}

/// The column `row` of the matrix times the byte's image under the S-box, as a big-endian word, top row first
/// (FIPS 197, 5.1.3).
pub fn enc_word(row: u8, byte: u8) -> u32
    requires { row < 4 }
    ensures { result ≡ enc_word row byte }
{
    ENC[256 * row as usize + byte as usize]
}

/// The column `row` of the inverse matrix times the byte's image under the inverse S-box, as a big-endian word, top
/// row first (FIPS 197, 5.3.3).
pub fn dec_word(row: u8, byte: u8) -> u32
    requires { row < 4 }
    ensures { result ≡ dec_word row byte }
{
    DEC[256 * row as usize + byte as usize]
}

#[inline(always)]
fn enc_column(a: u8, b: u8, c: u8, d: u8) -> u32
    ensures { to_be_bytes w32 result ≡ column 2 3 1 1 (sub a) (sub b) (sub c) (sub d) }
{
    ENC[768 + d as usize] ^ ENC[512 + c as usize] ^ ENC[256 + b as usize] ^ ENC[a as usize]
}

#[inline(always)]
pub fn dec_column(a: u8, b: u8, c: u8, d: u8) -> u32
    ensures { to_be_bytes w32 result ≡ column 14 11 13 9 (unsub a) (unsub b) (unsub c) (unsub d) }
{
    DEC[768 + d as usize] ^ DEC[512 + c as usize] ^ DEC[256 + b as usize] ^ DEC[a as usize]
}

#[inline(always)]
pub fn enc_round(s: [u32; 4], k: [u32; 4]) -> [u32; 4]
    ensures { state_of result ≡ round (state_of s) (state_of k) }
{
    let [s0, s1, s2, s3] = s;
    let a = s0.to_be_bytes();
    let b = s1.to_be_bytes();
    let c = s2.to_be_bytes();
    let d = s3.to_be_bytes();
    [
        enc_column(a[0], b[1], c[2], d[3]) ^ k[0],
        enc_column(b[0], c[1], d[2], a[3]) ^ k[1],
        enc_column(c[0], d[1], a[2], b[3]) ^ k[2],
        enc_column(d[0], a[1], b[2], c[3]) ^ k[3],
    ]
}

#[inline(always)]
pub fn dec_round(s: [u32; 4], k: [u32; 4]) -> [u32; 4]
    ensures { state_of result ≡ inv_round (state_of s) (state_of k) }
{
    let [s0, s1, s2, s3] = s;
    let a = s0.to_be_bytes();
    let b = s1.to_be_bytes();
    let c = s2.to_be_bytes();
    let d = s3.to_be_bytes();
    [
        dec_column(a[0], d[1], c[2], b[3]) ^ k[0],
        dec_column(b[0], a[1], d[2], c[3]) ^ k[1],
        dec_column(c[0], b[1], a[2], d[3]) ^ k[2],
        dec_column(d[0], c[1], b[2], a[3]) ^ k[3],
    ]
}

#[inline(always)]
fn sub_column(a: u8, b: u8, c: u8, d: u8) -> u32
    ensures { to_be_bytes w32 result ≡ sub a ∷ sub b ∷ sub c ∷ sub d ∷ [] }
{
    SUB_WORDS[768 + d as usize]
        ^ SUB_WORDS[512 + c as usize]
        ^ SUB_WORDS[256 + b as usize]
        ^ SUB_WORDS[a as usize]
}

#[inline(always)]
fn unsub_column(a: u8, b: u8, c: u8, d: u8) -> u32
    ensures { to_be_bytes w32 result ≡ unsub a ∷ unsub b ∷ unsub c ∷ unsub d ∷ [] }
{
    UNSUB_WORDS[768 + d as usize]
        ^ UNSUB_WORDS[512 + c as usize]
        ^ UNSUB_WORDS[256 + b as usize]
        ^ UNSUB_WORDS[a as usize]
}

#[inline(always)]
pub fn enc_last(s: [u32; 4], k: [u32; 4]) -> [u32; 4]
    ensures { state_of result ≡ last_round (state_of s) (state_of k) }
{
    let [s0, s1, s2, s3] = s;
    let a = s0.to_be_bytes();
    let b = s1.to_be_bytes();
    let c = s2.to_be_bytes();
    let d = s3.to_be_bytes();
    [
        sub_column(a[0], b[1], c[2], d[3]) ^ k[0],
        sub_column(b[0], c[1], d[2], a[3]) ^ k[1],
        sub_column(c[0], d[1], a[2], b[3]) ^ k[2],
        sub_column(d[0], a[1], b[2], c[3]) ^ k[3],
    ]
}

#[inline(always)]
pub fn dec_last(s: [u32; 4], k: [u32; 4]) -> [u32; 4]
    ensures { state_of result ≡ last_inv_round (state_of s) (state_of k) }
{
    let [s0, s1, s2, s3] = s;
    let a = s0.to_be_bytes();
    let b = s1.to_be_bytes();
    let c = s2.to_be_bytes();
    let d = s3.to_be_bytes();
    [
        unsub_column(a[0], d[1], c[2], b[3]) ^ k[0],
        unsub_column(b[0], a[1], d[2], c[3]) ^ k[1],
        unsub_column(c[0], b[1], a[2], d[3]) ^ k[2],
        unsub_column(d[0], c[1], b[2], a[3]) ^ k[3],
    ]
}
