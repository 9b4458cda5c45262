//! The state of a mode.

ghost use Rattle.std.specs.Prelude.{◌≤◌, length};
ghost use Rattle.ossl_blocks.specs.Held.{held_of};

use crate::kinds::ModeKind;
use ossl_aes::Block;
use ossl_blocks::Buffer;

/// A mode block by block: `value` is the IV, or what stands for it by now.
#[derive(Drop)]
pub struct BlockMode<C: Block> {
    pub(crate) cipher: C,
    pub(crate) kind: ModeKind,
    pub(crate) decrypt: bool,
    pub(crate) value: [u8; 16],
}

/// A text on its way through a mode. It holds back up to 16 bytes, so that the last block is known at the end.
#[derive(Drop)]
pub struct Mode<C: Block> {
    pub(crate) mode: BlockMode<C>,
    pub(crate) pad: bool,
    pub(crate) buffer: Buffer<16, 1>,
    ghost within: { length (held_of buffer) ≤ 16 },
}
