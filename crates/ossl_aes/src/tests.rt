ghost use Rattle.std.specs.Prelude.{◌≡◌, ◌*◌, length};
ghost use Rattle.ossl_aes.specs.State.{IsSize};

use crate::{Aes, Block, dec_word, enc_word, plain, sub, there_and_back, unsub};
use std::process::Abort;

const KEY: [u8; 32] = [
    0x00, 0x01, 0x02, 0x03, 0x04, 0x05, 0x06, 0x07, 0x08, 0x09, 0x0a, 0x0b, 0x0c, 0x0d, 0x0e, 0x0f,
    0x10, 0x11, 0x12, 0x13, 0x14, 0x15, 0x16, 0x17, 0x18, 0x19, 0x1a, 0x1b, 0x1c, 0x1d, 0x1e, 0x1f,
];

const BLOCK: [u8; 16] = [
    0x00, 0x11, 0x22, 0x33, 0x44, 0x55, 0x66, 0x77, 0x88, 0x99, 0xaa, 0xbb, 0xcc, 0xdd, 0xee, 0xff,
];

// Both ways through the cipher, from the block to its image and back.
fn round_trip<const NK: usize, const WORDS: usize>(
    rt: &impl Abort,
    key: &[u8],
    block: [u8; 16],
    image: [u8; 16],
)
    requires size { IsSize NK WORDS }
    requires fits { length key.now ≡ 4 * NK }
{
    let aes: Aes<NK, WORDS> = Aes::expand(key);
    assert_eq!(rt; aes.encrypt(block), image);
    assert_eq!(rt; aes.decrypt(image), block);
}

// FIPS 197, appendix C.
#[test]
fn examples_of_the_standard(rt: HostRuntime) {
    round_trip::<4, 44>(
        &rt,
        &KEY[..16],
        BLOCK,
        0x69c4_e0d8_6a7b_0430_d8cd_b780_70b4_c55a_u128.to_be_bytes(),
    );
    round_trip::<6, 52>(
        &rt,
        &KEY[..24],
        BLOCK,
        0xdda9_7ca4_864c_dfe0_6eaf_70a0_ec0d_7191_u128.to_be_bytes(),
    );
    round_trip::<8, 60>(
        &rt,
        &KEY,
        BLOCK,
        0x8ea2_b7ca_5167_45bf_eafc_4990_4b49_6089_u128.to_be_bytes(),
    );
}

#[test]
fn entries_of_the_tables(rt: HostRuntime) {
    assert_eq!(rt; sub(0), 0x63);
    assert_eq!(rt; sub(0x53), 0xed);
    assert_eq!(rt; unsub(0x63), 0);
    assert_eq!(rt; enc_word(0, 0), 0xc663_63a5);
    assert_eq!(rt; dec_word(0, 0x63), 0);
    assert_eq!(rt; dec_word(0, 0x7c), 0x0e09_0d0b);
}

// The tables against the field, at each byte.
#[test]
fn tables_are_the_field(rt: HostRuntime) {
    for n in 0..256u32 {
        let b = n as u8;
        let s = plain::sub(b);
        assert_eq!(rt; sub(b), s);
        assert_eq!(rt; unsub(s), b);
        assert_eq!(rt; plain::unsub(s), b);
        let enc = u32::from_be_bytes([plain::mul(2, s), s, s, plain::mul(3, s)]);
        let dec = u32::from_be_bytes([
            plain::mul(14, b),
            plain::mul(9, b),
            plain::mul(13, b),
            plain::mul(11, b),
        ]);
        for row in 0..4u8 {
            assert_eq!(rt; enc_word(row, b), enc.rotate_right(8 * row as u32));
            assert_eq!(rt; dec_word(row, s), dec.rotate_right(8 * row as u32));
        }
    }
}

// The same keys and blocks through the tables and through the plain form.
#[test]
fn tables_and_loops_agree(rt: HostRuntime) {
    let mut seed = 0x9e37_79b9_7f4a_7c15_f39c_c060_5ced_c835u128;
    for _ in 0u32..8 {
        let low = seed
            .wrapping_mul(0xd129_0d3b_7a1c_5e6f_2545_f491_4f6c_dd1d)
            .wrapping_add(1);
        let high = low
            .wrapping_mul(0xd129_0d3b_7a1c_5e6f_2545_f491_4f6c_dd1d)
            .wrapping_add(1);
        seed = high
            .wrapping_mul(0xd129_0d3b_7a1c_5e6f_2545_f491_4f6c_dd1d)
            .wrapping_add(1);
        let mut key = [0; 32];
        key[..16].copy_from_slice(&low.to_be_bytes());
        key[16..].copy_from_slice(&high.to_be_bytes());
        let block = seed.to_be_bytes();
        round_trip::<4, 44>(&rt, &key[..16], block, plain::encrypt(&key[..16], 4, block));
        round_trip::<6, 52>(&rt, &key[..24], block, plain::encrypt(&key[..24], 6, block));
        round_trip::<8, 60>(&rt, &key, block, plain::encrypt(&key, 8, block));
        round_trip::<4, 44>(&rt, &key[..16], plain::decrypt(&key[..16], 4, block), block);
        round_trip::<6, 52>(&rt, &key[..24], plain::decrypt(&key[..24], 6, block), block);
        round_trip::<8, 60>(&rt, &key, plain::decrypt(&key, 8, block), block);
    }
}

#[test]
fn decryption_undoes_encryption(rt: HostRuntime) {
    let block = there_and_back(&Aes::<6, 52>::expand(&KEY[..24]), &BLOCK);
    assert_eq!(rt; block, BLOCK);
}
