//! Encryption: the ciphertext as it goes, and the tag at the end.

ghost use Rattle.std.specs.Prelude.{◌≡◌, ℕ, List, [], ◌++◌, OnOk, OnErr};
ghost use Rattle.ossl_blocks.specs.Held.{held_of};
ghost use Rattle.ossl_gcm.specs.Run.{sealed_of, Finishes, KeepsSealed, KeepsCiphertext};

use crate::counter::through;
use crate::kinds::GcmRefused;
use crate::state::{Sealer, Stream};
use ossl_aes::Block;
use ossl_blocks::Buffer;
use ossl_modes::append_within;
use std::alloc::AllocError;

/// A counter of 32 bits tells so many blocks of text apart from each other and from the first counter block.
pub const BLOCKS: u64 = 0xffff_fffe;

impl<C: Block> Sealer<C> {
    /// The start of an encryption.
    pub fn new(stream: Stream<C>) -> Self
        ensures stream { result.stream ≡ stream }
        ensures none { held_of result.buffer ≡ [] }
        ensures len { result.len ≡ 0 }
    {
        Sealer {
            stream,
            buffer: Buffer::new(),
            len: 0,
        }
    }

    /// Takes the next bytes in, and appends the blocks that are whole by now.
    pub fn feed(&mut self, bytes: &[u8], out: &mut Vec<u8>) -> Result<(), AllocError>
        ensures outcome { OnOk result (KeepsSealed C.enc self.old out.old.items bytes.now self.new out.new.items) }
        ensures given { OnOk result (KeepsCiphertext C.enc self.old out.old.items bytes.now self.new out.new.items) }
        ensures appends { OnOk result ((given : List ℕ) × (out.new.items ≡ out.old.items ++ given)) }
        ensures err { OnErr result ((self.new ≡ self.old) × (out.new.items ≡ out.old.items)) }
    {
        let count = self.buffer.whole_len(bytes.len());
        out.reserve(count)?;
        self.buffer.feed(bytes, &mut self.stream, out);
        self.len = self.len.saturating_add(count as u64);
        Ok(())
    }

    /// Appends what is left of the ciphertext, and the tag.
    pub fn finish(self, out: &mut Vec<u8>) -> Result<(), GcmRefused>
        ensures { Finishes out.old.items out.new.items result (sealed_of C.enc self []) }
    {
        let count = self.buffer.len();
        let mut block = *self.buffer.block();
        let rest = &mut block[..count];
        through(&self.stream.cipher, self.stream.counter, rest);
        let len = self.len.saturating_add(count as u64);
        if len > 16 * BLOCKS {
            return Err(GcmRefused::StreamEnd { blocks: BLOCKS });
        }
        if out.reserve(count + 16).is_err() {
            return Err(GcmRefused::NoMemory);
        }
        let tag = self.stream.tag(len, rest);
        append_within(out, rest);
        append_within(out, &tag);
        Ok(())
    }
}
