//! MD4 (RFC 1320).

ghost use Rattle.std.specs.Prelude.{◌≡◌, ℕ, ◌+◌, ◌-◌, ◌*◌, ◌/◌, ◌%◌, ◌^◌, ◌<◌, ◌≤◌, List, ◌∷◌, ◌++◌, length, take};
ghost use Rattle.std.specs.Prelude.{replicate};
ghost use Rattle.ossl_digests.specs.Md4.{digest_from, initial_registers, registers_after, padding, output};

use crate::rounds::compress;
use crate::state::{Md4, Registers};
use ossl_blocks::{BlockTaker, Buffer};

const BLOCK_LEN: usize = 64;

// The padding's first bytes: a bit 1, then zeros (RFC 1320, 3.1). With the length after them it has 9 to 72 bytes.
const PADDING: [u8; 72] = [
    0x80, 0, 0, 0, 0, 0, 0, 0, 0, 0, 0, 0, 0, 0, 0, 0, 0, 0, 0, 0, 0, 0, 0, 0, 0, 0, 0, 0, 0, 0, 0,
    0, 0, 0, 0, 0, 0, 0, 0, 0, 0, 0, 0, 0, 0, 0, 0, 0, 0, 0, 0, 0, 0, 0, 0, 0, 0, 0, 0, 0, 0, 0, 0,
    0, 0, 0, 0, 0, 0, 0, 0, 0,
];

// The bytes of the padding up to the length field, where the last block has `used` bytes of the message.
fn front_len(used: usize) -> usize
    requires { used < 64 }
    ensures value { result ≡ (119 - used) % 64 + 1 }
    ensures within { result ≤ 64 }
{
    (119 - used) % 64 + 1
}

// The padding, with the length in bits as its last bytes, and zeros after it.
fn padding_with(front: usize, bits: [u8; 8]) -> [u8; 72]
    requires some { 0 < front }
    requires within { front ≤ 64 }
    ensures { take (front + 8) result ≡ 0x80 ∷ replicate (front - 1) 0 ++ bits }
{
    let mut padding = PADDING;
    padding[front..front + 8].copy_from_slice(&bits);
    padding
}

// Takes whole blocks into the registers.
fn compress_all(registers: &mut [u32; 4], bytes: &[u8])
    requires { length bytes.now % 64 ≡ 0 }
    ensures { registers.new ≡ registers_after registers.old (length bytes.now / 64) bytes.now }
{
    'block: for i in 0..bytes.len() / BLOCK_LEN {
        compress(registers, &bytes[BLOCK_LEN * i..BLOCK_LEN * i + BLOCK_LEN]);
    }
}

impl BlockTaker<64> for Registers {
    ghost use Rattle.ossl_digests.specs.Holds.{HasCompressed};
    ghost use Rattle.ossl_digests.specs.Laws.{compressed_nothing};

    type Out = ();

    ghost has_room = { λ _ _. Unit {0} };

    ghost taken = { λ registers _ bytes after _. HasCompressed registers.0 bytes after.0 };

    fn take(&mut self, first: &[u8], rest: &[u8], _out: &mut ()) {
        compress_all(&mut self.0, first);
        compress_all(&mut self.0, rest);
    }

    ghost nothing = { λ registers _. compressed_nothing registers.0 };
}

impl Md4 {
    ghost use Rattle.ossl_digests.specs.Holds.{digest_with};

    /// No bytes yet.
    pub fn new() -> Md4
        ensures gives { (p : List ℕ) → digest_with result p ≡ digest_from initial_registers p }
        ensures counted { result.total ≡ 0 }
    {
        Md4 {
            registers: Registers([0x6745_2301, 0xEFCD_AB89, 0x98BA_DCFE, 0x1032_5476]),
            buffer: Buffer::new(),
            total: 0,
        }
    }

    /// Takes more bytes in.
    pub fn feed(&mut self, bytes: &[u8])
        ensures gives { (p : List ℕ) → digest_with self.old (bytes.now ++ p) ≡ digest_with self.new p }
        ensures counted { self.new.total ≡ (self.old.total + length bytes.now) % 2 ^ 64 }
    {
        self.buffer.feed(bytes, &mut self.registers, &mut ());
        self.total = self.total.wrapping_add(bytes.len() as u64);
    }

    /// The digest of all bytes taken in.
    pub fn finish(mut self) -> [u8; 16]
        ensures { result ≡ digest_with self (padding self.total) }
    {
        let bits = self.total.wrapping_mul(8).to_le_bytes();
        let front = front_len(self.buffer.len());
        let padding = padding_with(front, bits);
        self.feed(&padding[..front + 8]);
        output(&self.registers.0)
    }
}

// The registers as bytes, low byte first (RFC 1320, 3.5).
fn output(registers: &[u32; 4]) -> [u8; 16]
    ensures { result ≡ output registers.now }
{
    let a = registers[0].to_le_bytes();
    let b = registers[1].to_le_bytes();
    let c = registers[2].to_le_bytes();
    let d = registers[3].to_le_bytes();
    [
        a[0], a[1], a[2], a[3], b[0], b[1], b[2], b[3], c[0], c[1], c[2], c[3], d[0], d[1], d[2],
        d[3],
    ]
}
