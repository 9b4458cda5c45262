// The rounds of MD4 over one block (RFC 1320, 3.4).

ghost use Rattle.std.specs.Prelude.{◌≡◌, ℕ, ◌+◌, ◌<◌, ◌≤◌, length, slice_index};
ghost use Rattle.ossl_digests.specs.Md4.{choice, majority, parity, turned, operation, round_1, round_2, round_3};
ghost use Rattle.ossl_digests.specs.Md4.{word_at, block_words, compress};

#[inline(always)]
fn turned(v: [u32; 4], mixed: u32, word: u32, constant: u32, shift: u32) -> [u32; 4]
    requires { shift < 32 }
    ensures { result ≡ turned v mixed word constant shift }
{
    let [a, b, c, d] = v;
    let sum = a
        .wrapping_add(mixed)
        .wrapping_add(word)
        .wrapping_add(constant);
    [d, sum.rotate_left(shift), b, c]
}

// An operation of round 1, with F.
#[inline(always)]
#[tactic(auto, unfolding(crate::specs::Md4::operation))]
fn first(v: [u32; 4], x: &[u32; 16], k: usize, shift: u32) -> [u32; 4]
    requires place { k < 16 }
    requires shift { shift < 32 }
    ensures { result ≡ operation choice 0 v (slice_index x.now k) shift }
{
    turned(v, (v[1] & v[2]) | (!v[1] & v[3]), x[k], 0, shift)
}

// An operation of round 2, with G.
#[inline(always)]
#[tactic(auto, unfolding(crate::specs::Md4::operation))]
fn second(v: [u32; 4], x: &[u32; 16], k: usize, shift: u32) -> [u32; 4]
    requires place { k < 16 }
    requires shift { shift < 32 }
    ensures { result ≡ operation majority 0x5A827999 v (slice_index x.now k) shift }
{
    let mixed = (v[1] & v[2]) | (v[1] & v[3]) | (v[2] & v[3]);
    turned(v, mixed, x[k], 0x5A82_7999, shift)
}

// An operation of round 3, with H.
#[inline(always)]
#[tactic(auto, unfolding(crate::specs::Md4::operation))]
fn third(v: [u32; 4], x: &[u32; 16], k: usize, shift: u32) -> [u32; 4]
    requires place { k < 16 }
    requires shift { shift < 32 }
    ensures { result ≡ operation parity 0x6ED9EBA1 v (slice_index x.now k) shift }
{
    turned(v, v[1] ^ v[2] ^ v[3], x[k], 0x6ED9_EBA1, shift)
}

#[inline(always)]
#[tactic(auto, unfolding(crate::specs::Md4::round_1))]
fn round_1(v: [u32; 4], x: &[u32; 16]) -> [u32; 4]
    ensures { result ≡ round_1 x.now v }
{
    let v = first(v, x, 0, 3);
    let v = first(v, x, 1, 7);
    let v = first(v, x, 2, 11);
    let v = first(v, x, 3, 19);
    let v = first(v, x, 4, 3);
    let v = first(v, x, 5, 7);
    let v = first(v, x, 6, 11);
    let v = first(v, x, 7, 19);
    let v = first(v, x, 8, 3);
    let v = first(v, x, 9, 7);
    let v = first(v, x, 10, 11);
    let v = first(v, x, 11, 19);
    let v = first(v, x, 12, 3);
    let v = first(v, x, 13, 7);
    let v = first(v, x, 14, 11);
    first(v, x, 15, 19)
}

#[inline(always)]
#[tactic(auto, unfolding(crate::specs::Md4::round_2))]
fn round_2(v: [u32; 4], x: &[u32; 16]) -> [u32; 4]
    ensures { result ≡ round_2 x.now v }
{
    let v = second(v, x, 0, 3);
    let v = second(v, x, 4, 5);
    let v = second(v, x, 8, 9);
    let v = second(v, x, 12, 13);
    let v = second(v, x, 1, 3);
    let v = second(v, x, 5, 5);
    let v = second(v, x, 9, 9);
    let v = second(v, x, 13, 13);
    let v = second(v, x, 2, 3);
    let v = second(v, x, 6, 5);
    let v = second(v, x, 10, 9);
    let v = second(v, x, 14, 13);
    let v = second(v, x, 3, 3);
    let v = second(v, x, 7, 5);
    let v = second(v, x, 11, 9);
    second(v, x, 15, 13)
}

#[inline(always)]
#[tactic(auto, unfolding(crate::specs::Md4::round_3))]
fn round_3(v: [u32; 4], x: &[u32; 16]) -> [u32; 4]
    ensures { result ≡ round_3 x.now v }
{
    let v = third(v, x, 0, 3);
    let v = third(v, x, 8, 9);
    let v = third(v, x, 4, 11);
    let v = third(v, x, 12, 15);
    let v = third(v, x, 2, 3);
    let v = third(v, x, 10, 9);
    let v = third(v, x, 6, 11);
    let v = third(v, x, 14, 15);
    let v = third(v, x, 1, 3);
    let v = third(v, x, 9, 9);
    let v = third(v, x, 5, 11);
    let v = third(v, x, 13, 15);
    let v = third(v, x, 3, 3);
    let v = third(v, x, 11, 9);
    let v = third(v, x, 7, 11);
    third(v, x, 15, 15)
}

#[inline(always)]
fn word_at(block: &[u8], i: usize) -> u32
    requires { i + 4 ≤ length block.now }
    ensures { result ≡ word_at block.now i }
{
    u32::from_le_bytes([block[i], block[i + 1], block[i + 2], block[i + 3]])
}

#[inline(always)]
fn block_words(block: &[u8]) -> [u32; 16]
    requires { length block.now ≡ 64 }
    ensures { result ≡ block_words block.now }
{
    [
        word_at(block, 0),
        word_at(block, 4),
        word_at(block, 8),
        word_at(block, 12),
        word_at(block, 16),
        word_at(block, 20),
        word_at(block, 24),
        word_at(block, 28),
        word_at(block, 32),
        word_at(block, 36),
        word_at(block, 40),
        word_at(block, 44),
        word_at(block, 48),
        word_at(block, 52),
        word_at(block, 56),
        word_at(block, 60),
    ]
}

/// Takes one block into the registers.
pub fn compress(registers: &mut [u32; 4], block: &[u8])
    requires { length block.now ≡ 64 }
    ensures { registers.new ≡ compress registers.old block.now }
{
    let x = block_words(block);
    let [a, b, c, d] = *registers;
    let v = round_3(round_2(round_1(*registers, &x), &x), &x);
    *registers = [
        a.wrapping_add(v[0]),
        b.wrapping_add(v[1]),
        c.wrapping_add(v[2]),
        d.wrapping_add(v[3]),
    ];
}
