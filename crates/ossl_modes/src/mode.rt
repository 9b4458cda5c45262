//! A text through a mode: its start, its pieces, its end.

ghost use Rattle.std.specs.Prelude.{◌≡◌, ℕ, ◌%◌, ◌<◌, List, [], ◌++◌, length, map, true, ◌⊎◌, OnOk, OnErr};
ghost use Rattle.std.specs.List.{concat};
ghost use Rattle.ossl_blocks.specs.Held.{held_of};
ghost use Rattle.ossl_modes.specs.Modes.{block_out, is_stream, before, equations, whole_blocks, padded, unpadded};
ghost use Rattle.ossl_modes.specs.Modes.{outcome};
ghost use Rattle.ossl_modes.specs.Run.{outcome_of, whole_blocks_of, Finishes, RunsTo};

use crate::kinds::{FinishRefused, ModeKind};
use crate::padding::{padded_block, unpadded_len};
use crate::state::{BlockMode, Mode};
use ossl_aes::Block;
use ossl_blocks::{BlockTaker, Buffer};
use std::alloc::AllocError;

fn append(out: &mut Vec<u8>, bytes: &[u8]) -> Result<(), FinishRefused>
    ensures { Finishes out.old.items out.new.items result (Ok bytes.now) }
{
    match out.extend_from_slice(bytes) {
        Ok(()) => Ok(()),
        Err(_) => Err(FinishRefused::NoMemory),
    }
}

impl<C: Block> Mode<C> {
    /// The start of a text: `iv` is the initial value, which ECB does not use; `decrypt` is the direction; `pad` wants
    /// padding, which only ECB and CBC have.
    pub fn new(cipher: C, kind: ModeKind, iv: [u8; 16], decrypt: bool, pad: bool) -> Self
        ensures text { (bytes : List ℕ)
            → outcome_of result bytes ≡ outcome (C.enc cipher) (C.dec cipher) kind decrypt pad iv bytes }
        ensures unchecked { (bytes : List ℕ)
            → whole_blocks_of result bytes ≡ whole_blocks (C.enc cipher) (C.dec cipher) kind decrypt iv bytes }
    {
        Mode {
            mode: BlockMode {
                cipher,
                kind,
                decrypt,
                value: iv,
            },
            pad,
            buffer: Buffer::new(),
        }
    }

    /// Takes the next bytes of the text in, and appends the blocks that are known not to be the last.
    pub fn feed(&mut self, bytes: &[u8], out: &mut Vec<u8>) -> Result<(), AllocError>
        // What stood in the vector before it stands there yet, and what it gave stands after that.
        ensures appends { OnOk result ((given : List ℕ) × (out.new.items ≡ out.old.items ++ given)) }
        // Whatever bytes come yet: what was appended, and what the new state makes of them, is what the old state makes
        // of these bytes and them.
        ensures text { OnOk result
            ((rest : List ℕ) → before out.old.items (outcome_of self.old (bytes.now ++ rest))
            ≡ before out.new.items (outcome_of self.new rest)) }
        // The same of the block equations without the last check.
        ensures unchecked { OnOk result
            ((rest : List ℕ) → out.old.items ++ whole_blocks_of self.old (bytes.now ++ rest) ≡ out.new.items
            ++ whole_blocks_of self.new rest) }
        ensures err { OnErr result ((self.new ≡ self.old) × (out.new.items ≡ out.old.items)) }
    {
        out.reserve(self.buffer.whole_len(bytes.len()))?;
        self.buffer.feed(bytes, &mut self.mode, out);
        Ok(())
    }

    // What is held, where its length fits.
    fn finish_plain(&self, out: &mut Vec<u8>) -> Result<(), FinishRefused>
        requires { (is_stream self.now.mode.kind ≡ true) ⊎ (length (held_of self.now.buffer) % 16 ≡ 0) }
        ensures { Finishes out.old.items out.new.items result
            (Ok (equations (C.enc self.now.mode.cipher) (C.dec self.now.mode.cipher) self.now.mode.kind
            self.now.mode.decrypt self.now.mode.value (held_of self.now.buffer))) }
    {
        let text = self.mode.through(*self.buffer.block());
        append(out, &text[..self.buffer.len()])
    }

    // What is held, a whole block, and a block of padding.
    fn finish_full(&mut self, out: &mut Vec<u8>) -> Result<(), FinishRefused>
        requires { length (held_of self.old.buffer) ≡ 16 }
        ensures { Finishes out.old.items out.new.items result
            (Ok (equations (C.enc self.old.mode.cipher) (C.dec self.old.mode.cipher) self.old.mode.kind
            self.old.mode.decrypt self.old.mode.value (padded (held_of self.old.buffer)))) }
    {
        if out.reserve(32).is_err() {
            return Err(FinishRefused::NoMemory);
        }
        let (last, padding) = (*self.buffer.block(), [16; 16]);
        self.mode.take(&last, &padding, out);
        Ok(())
    }

    // What is held, less than a block, with its padding.
    fn finish_short(&self, out: &mut Vec<u8>) -> Result<(), FinishRefused>
        requires { length (held_of self.now.buffer) < 16 }
        ensures { Finishes out.old.items out.new.items result
            (Ok (equations (C.enc self.now.mode.cipher) (C.dec self.now.mode.cipher) self.now.mode.kind
            self.now.mode.decrypt self.now.mode.value (padded (held_of self.now.buffer)))) }
    {
        let last = padded_block(*self.buffer.block(), self.buffer.len());
        append(out, &self.mode.through(last))
    }

    // The last block, without its padding.
    fn finish_unpadded(&self, out: &mut Vec<u8>) -> Result<(), FinishRefused>
        requires { length (held_of self.now.buffer) ≡ 16 }
        ensures { Finishes out.old.items out.new.items result
            (unpadded (block_out (C.enc self.now.mode.cipher) (C.dec self.now.mode.cipher) self.now.mode.kind
            self.now.mode.decrypt self.now.mode.value (held_of self.now.buffer))) }
    {
        let text = self.mode.through(*self.buffer.block());
        match unpadded_len(&text) {
            Some(n) => append(out, &text[..n]),
            None => Err(FinishRefused::BadDecrypt),
        }
    }

    /// The end of the text: appends what is left of it, or refuses and appends nothing. A refusal other than of memory
    /// is that of the standard over all bytes fed.
    pub fn finish(mut self, out: &mut Vec<u8>) -> Result<(), FinishRefused>
        ensures { Finishes out.old.items out.new.items result (outcome_of self []) }
    {
        self.finish_in_place(out)
    }

    /// What `finish` does, where the mode stands, so that its state need not be moved. What is fed after it is no text.
    pub fn finish_in_place(&mut self, out: &mut Vec<u8>) -> Result<(), FinishRefused>
        ensures { Finishes out.old.items out.new.items result (outcome_of self.old []) }
    {
        let count = self.buffer.len();
        let wrong = FinishRefused::WrongFinalBlock { rest: count as u64 };
        match self.mode.kind {
            ModeKind::Cfb | ModeKind::Ofb | ModeKind::Ctr => self.finish_plain(out),
            ModeKind::Ecb | ModeKind::Cbc => {
                if self.pad && self.mode.decrypt {
                    if count == 16 {
                        self.finish_unpadded(out)
                    } else {
                        Err(wrong)
                    }
                } else if self.pad && count == 16 {
                    self.finish_full(out)
                } else if self.pad {
                    self.finish_short(out)
                } else if count % 16 == 0 {
                    self.finish_plain(out)
                } else {
                    Err(wrong)
                }
            }
        }
    }
}

/// A whole text in pieces, cut in any way: appends the mode's text of the pieces joined. Where the end is refused, what
/// was appended is a beginning of the block equations over the whole blocks.
pub fn run<C: Block>(
    cipher: C,
    kind: ModeKind,
    iv: [u8; 16],
    decrypt: bool,
    pad: bool,
    pieces: &[&[u8]],
    out: &mut Vec<u8>,
) -> Result<(), FinishRefused>
    ensures { let bytes = concat (map (λ piece. piece.now) pieces.now) in
        RunsTo out.old.items out.new.items result (outcome (C.enc cipher) (C.dec cipher) kind decrypt pad iv bytes)
        (whole_blocks (C.enc cipher) (C.dec cipher) kind decrypt iv bytes) }
{
    let mut mode = Mode::new(cipher, kind, iv, decrypt, pad);
    for piece in pieces {
        match mode.feed(piece, out) {
            Ok(()) => {}
            Err(_) => return Err(FinishRefused::NoMemory),
        }
    }
    mode.finish(out)
}
