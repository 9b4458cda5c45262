//! The state of MD4.

ghost use Rattle.std.specs.Prelude.{◌≡◌, ◌%◌, length};
ghost use Rattle.ossl_blocks.specs.Held.{held_of};

use ossl_blocks::Buffer;

/// The registers after the blocks so far.
#[derive(Drop, Clone, Copy)]
pub struct Registers(pub(crate) [u32; 4]);

/// MD4 of bytes that come in pieces.
#[derive(Drop, Clone, Copy)]
pub struct Md4 {
    pub(crate) registers: Registers,
    pub(crate) buffer: Buffer<64, 0>,
    // The count of all bytes, modulo 2^64.
    pub(crate) total: u64,
    ghost in_step: { length (held_of buffer) ≡ total % 64 },
}
