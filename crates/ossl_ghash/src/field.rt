//! The product of two blocks, bit by bit and by nibbles.

ghost use Rattle.std.specs.Prelude.{◌≡◌, ℕ, ◌*◌, ◌/◌, ◌%◌, ◌<◌};
ghost use Rattle.ossl_ghash.specs.Ghash.{halved, product, IsAdditive};
ghost use Rattle.ossl_ghash.specs.Nibbles.{halved_4};

/// Moved right by a bit, reduced.
#[inline(always)]
pub fn halved(v: u128) -> u128
    ensures { result ≡ halved v }
{
    if v % 2 == 0 {
        v / 2
    } else {
        (v / 2) ^ 0xe100_0000_0000_0000_0000_0000_0000_0000
    }
}

/// The product of two blocks as big-endian numbers, bit by bit (SP 800-38D, 6.3). It is linear in each factor.
pub fn product(x: u128, y: u128) -> u128
    ensures value { result ≡ product x y }
    ensures first { (b : ℕ) → IsAdditive (λ a. product a b) }
    ensures second { (a : ℕ) → IsAdditive (λ b. product a b) }
{
    let mut sum = 0;
    let mut multiple = y;
    for i in 0..128u32 {
        if (x >> (127 - i)) % 2 == 1 {
            sum ^= multiple;
        }
        let next = halved(multiple);
        multiple = next;
    }
    sum
}

// What comes of four bits that are moved out, in the highest 64 bits of 128.
const REDUCED: [u64; 16] = [
    0x0000_0000_0000_0000,
    0x1c20_0000_0000_0000,
    0x3840_0000_0000_0000,
    0x2460_0000_0000_0000,
    0x7080_0000_0000_0000,
    0x6ca0_0000_0000_0000,
    0x48c0_0000_0000_0000,
    0x54e0_0000_0000_0000,
    0xe100_0000_0000_0000,
    0xfd20_0000_0000_0000,
    0xd940_0000_0000_0000,
    0xc560_0000_0000_0000,
    0x9180_0000_0000_0000,
    0x8da0_0000_0000_0000,
    0xa9c0_0000_0000_0000,
    0xb5e0_0000_0000_0000,
];

/// Moved right by four bits, reduced.
#[inline(always)]
pub fn halved_4(v: u128) -> u128
    ensures { result ≡ halved_4 v }
{
    (v / 16) ^ (REDUCED[(v % 16) as usize] as u128 * 0x1_0000_0000_0000_0000)
}
