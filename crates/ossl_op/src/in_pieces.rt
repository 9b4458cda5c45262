//! The algorithms that give text as bytes come in: the modes of AES, and the key streams.

ghost use Rattle.ossl_op.specs.Running.{RunsChaCha, RunsMode, RunsRc4};

use crate::algorithm::Algorithm;
use ossl_aes::Block;
use ossl_chacha::ChaCha;
use ossl_legacy::Rc4;
use ossl_modes::{FinishRefused, Mode};
use std::alloc::AllocError;

impl<C: Block> Algorithm for Mode<C> {
    ghost runs = { λ mode work. RunsMode mode work };

    #[inline(always)]
    fn feed(&mut self, bytes: &[u8], out: &mut Vec<u8>) -> Result<(), AllocError> {
        Mode::feed(self, bytes, out)
    }

    // It ends where it stands, so that it is not moved once more.
    #[inline(always)]
    fn finish(mut self, out: &mut Vec<u8>) -> Result<(), FinishRefused> {
        self.finish_in_place(out)
    }
}

impl Algorithm for ChaCha {
    ghost runs = { RunsChaCha };

    #[inline(always)]
    fn feed(&mut self, bytes: &[u8], out: &mut Vec<u8>) -> Result<(), AllocError> {
        ChaCha::feed(self, bytes, out)
    }

    fn finish(self, _out: &mut Vec<u8>) -> Result<(), FinishRefused> {
        match ChaCha::finish(self) {
            Ok(()) => Ok(()),
            Err(end) => Err(FinishRefused::StreamEnd { blocks: end.blocks }),
        }
    }
}

impl Algorithm for Rc4 {
    ghost runs = { RunsRc4 };

    #[inline(always)]
    fn feed(&mut self, bytes: &[u8], out: &mut Vec<u8>) -> Result<(), AllocError> {
        self.apply(bytes, out)
    }

    fn finish(self, _out: &mut Vec<u8>) -> Result<(), FinishRefused> {
        Ok(())
    }
}
