//! The state of a buffer.

ghost use Rattle.std.specs.Prelude.{◌+◌, ◌<◌};
ghost use Rattle.ossl_blocks.specs.Cut.{IsSize};

/// Bytes on their way into blocks of `SIZE` bytes. With `KEPT` as 0 a block is handed on once it is whole; with 1 a
/// whole block is kept back until a byte after it comes, for those to whom the last block is another than the rest.
#[derive(Clone, Copy, Drop)]
pub struct Buffer<const SIZE: usize, const KEPT: usize> {
    pub(crate) held: [u8; SIZE],
    pub(crate) count: usize,
    ghost size: { IsSize SIZE KEPT },
    ghost within: { count < SIZE + KEPT },
}
