//! The bytes of a block, and the state as four words, a column each, top row in the highest byte. A block goes in and
//! out of memory in parts of 4, 4 and 8 bytes, everywhere alike: what is read in the parts in which it was written need
//! not wait for the memory, and parts that are not all alike are not gathered in a vector register, from which an index
//! is slow to get.

ghost use Rattle.std.specs.Prelude.{◌≡◌, ◌+◌, ◌*◌, ◌^◌, ◌≤◌, [], ◌∷◌, ◌++◌, length, slice_index, bit_xor};
ghost use Rattle.std.specs.Int.{w32, w128, to_be_bytes};
ghost use Rattle.ossl_aes.specs.Cipher.{add, word_at};
ghost use Rattle.ossl_aes.specs.Rounds.{state_of};

/// The word at byte `i`.
#[inline(always)]
pub fn word(bytes: &[u8], i: usize) -> u32
    requires { i + 4 ≤ length bytes.now }
    ensures { result ≡ word_at bytes.now i }
{
    u32::from_be_bytes([bytes[i], bytes[i + 1], bytes[i + 2], bytes[i + 3]])
}

#[inline(always)]
fn two_words(bytes: &[u8], i: usize) -> u64
    requires { i + 8 ≤ length bytes.now }
    ensures { result ≡ word_at bytes.now i * 2 ^ 32 + word_at bytes.now (i + 4) }
{
    u64::from_be_bytes([
        bytes[i],
        bytes[i + 1],
        bytes[i + 2],
        bytes[i + 3],
        bytes[i + 4],
        bytes[i + 5],
        bytes[i + 6],
        bytes[i + 7],
    ])
}

/// The state that a block is.
#[inline(always)]
pub fn load(block: &[u8]) -> [u32; 4]
    requires { length block.now ≡ 16 }
    ensures { state_of result ≡ block.now }
{
    let last = two_words(block, 8);
    [
        word(block, 0),
        word(block, 4),
        (last / 0x1_0000_0000) as u32,
        (last % 0x1_0000_0000) as u32,
    ]
}

#[inline(always)]
fn word_bytes(w: u32) -> [u8; 4]
    ensures { result ≡ to_be_bytes w32 w }
{
    w.swap_bytes().to_le_bytes()
}

#[inline(always)]
fn two_words_bytes(v: u32, w: u32) -> [u8; 8]
    ensures { result ≡ to_be_bytes w32 v ++ to_be_bytes w32 w }
{
    (v as u64 * 0x1_0000_0000 + w as u64)
        .swap_bytes()
        .to_le_bytes()
}

/// The block that a state is.
#[inline(always)]
pub fn store(s: [u32; 4]) -> [u8; 16]
    ensures { result ≡ state_of s }
{
    let [s0, s1, s2, s3] = s;
    let [x0, x1, x2, x3] = word_bytes(s0);
    let [x4, x5, x6, x7] = word_bytes(s1);
    let [x8, x9, x10, x11, x12, x13, x14, x15] = two_words_bytes(s2, s3);
    [
        x0, x1, x2, x3, x4, x5, x6, x7, x8, x9, x10, x11, x12, x13, x14, x15,
    ]
}

/// The sum of two states.
#[inline(always)]
pub fn add(s: [u32; 4], k: [u32; 4]) -> [u32; 4]
    ensures { state_of result ≡ add (state_of s) (state_of k) }
{
    [s[0] ^ k[0], s[1] ^ k[1], s[2] ^ k[2], s[3] ^ k[3]]
}

// The sum of four bytes of each text.
#[inline(always)]
fn sum_4(a: &[u8], b: &[u8], i: usize) -> [u8; 4]
    requires a { i + 4 ≤ length a.now }
    requires b { i + 4 ≤ length b.now }
    ensures { result ≡ bit_xor (slice_index a.now i) (slice_index b.now i)
        ∷ bit_xor (slice_index a.now (i + 1)) (slice_index b.now (i + 1))
        ∷ bit_xor (slice_index a.now (i + 2)) (slice_index b.now (i + 2))
        ∷ bit_xor (slice_index a.now (i + 3)) (slice_index b.now (i + 3))
        ∷ [] }
{
    let x = u32::from_le_bytes([a[i], a[i + 1], a[i + 2], a[i + 3]]);
    let y = u32::from_le_bytes([b[i], b[i + 1], b[i + 2], b[i + 3]]);
    (x ^ y).to_le_bytes()
}

// The sum of eight bytes of each text.
#[inline(always)]
fn sum_8(a: &[u8], b: &[u8], i: usize) -> [u8; 8]
    requires a { i + 8 ≤ length a.now }
    requires b { i + 8 ≤ length b.now }
    ensures { result ≡ bit_xor (slice_index a.now i) (slice_index b.now i)
        ∷ bit_xor (slice_index a.now (i + 1)) (slice_index b.now (i + 1))
        ∷ bit_xor (slice_index a.now (i + 2)) (slice_index b.now (i + 2))
        ∷ bit_xor (slice_index a.now (i + 3)) (slice_index b.now (i + 3))
        ∷ bit_xor (slice_index a.now (i + 4)) (slice_index b.now (i + 4))
        ∷ bit_xor (slice_index a.now (i + 5)) (slice_index b.now (i + 5))
        ∷ bit_xor (slice_index a.now (i + 6)) (slice_index b.now (i + 6))
        ∷ bit_xor (slice_index a.now (i + 7)) (slice_index b.now (i + 7))
        ∷ [] }
{
    let x = u64::from_le_bytes([
        a[i],
        a[i + 1],
        a[i + 2],
        a[i + 3],
        a[i + 4],
        a[i + 5],
        a[i + 6],
        a[i + 7],
    ]);
    let y = u64::from_le_bytes([
        b[i],
        b[i + 1],
        b[i + 2],
        b[i + 3],
        b[i + 4],
        b[i + 5],
        b[i + 6],
        b[i + 7],
    ]);
    (x ^ y).to_le_bytes()
}

/// The sum of two blocks, byte by byte: their exclusive or.
#[inline(always)]
pub fn xor_blocks(a: [u8; 16], b: [u8; 16]) -> [u8; 16]
    ensures { result ≡ add a b }
{
    let [x0, x1, x2, x3] = sum_4(&a, &b, 0);
    let [x4, x5, x6, x7] = sum_4(&a, &b, 4);
    let [x8, x9, x10, x11, x12, x13, x14, x15] = sum_8(&a, &b, 8);
    [
        x0, x1, x2, x3, x4, x5, x6, x7, x8, x9, x10, x11, x12, x13, x14, x15,
    ]
}

/// The block that a number is, highest byte first.
#[inline(always)]
pub fn number_block(n: u128) -> [u8; 16]
    ensures { result ≡ to_be_bytes w128 n }
{
    let word = 0x1_0000_0000;
    let (high, low) = (n / 0x1_0000_0000_0000_0000, n % 0x1_0000_0000_0000_0000);
    store([
        (high / word) as u32,
        (high % word) as u32,
        (low / word) as u32,
        (low % word) as u32,
    ])
}
