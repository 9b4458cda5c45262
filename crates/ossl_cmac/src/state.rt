//! The state of a message's code.

ghost use Rattle.std.specs.Prelude.{◌≤◌, length};
ghost use Rattle.ossl_blocks.specs.Held.{held_of};

use ossl_aes::Block;
use ossl_blocks::Buffer;

/// The chain over the blocks so far.
#[derive(Drop)]
pub struct Chain<C: Block> {
    pub(crate) cipher: C,
    pub(crate) value: [u8; 16],
}

/// The code of a message on its way. It holds back up to 16 bytes, so that the last block is known at the end.
#[derive(Drop)]
pub struct Cmac<C: Block> {
    pub(crate) chain: Chain<C>,
    pub(crate) buffer: Buffer<16, 1>,
    ghost within: { length (held_of buffer) ≤ 16 },
}
