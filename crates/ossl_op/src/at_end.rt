//! The algorithms that give all they give at the end: digests, codes and derived keys.

ghost use Rattle.ossl_op.specs.Running.{RunsCmac, RunsDigest, RunsHkdf, RunsHmac};

use crate::algorithm::{Algorithm, append};
use crate::derived::Derived;
use ossl_aes::Block;
use ossl_cmac::Cmac;
use ossl_digests::Digester;
use ossl_hmac::Hmac;
use ossl_modes::FinishRefused;
use std::alloc::AllocError;

impl Algorithm for Digester {
    ghost runs = { RunsDigest };

    fn feed(&mut self, bytes: &[u8], _out: &mut Vec<u8>) -> Result<(), AllocError> {
        Digester::feed(self, bytes);
        Ok(())
    }

    #[inline(always)]
    fn finish(self, out: &mut Vec<u8>) -> Result<(), FinishRefused> {
        append(out, Digester::finish(self).as_slice())
    }
}

impl Algorithm for Hmac {
    ghost runs = { RunsHmac };

    fn feed(&mut self, bytes: &[u8], _out: &mut Vec<u8>) -> Result<(), AllocError> {
        Hmac::feed(self, bytes);
        Ok(())
    }

    #[inline(always)]
    fn finish(self, out: &mut Vec<u8>) -> Result<(), FinishRefused> {
        append(out, Hmac::finish(self).as_slice())
    }
}

impl<C: Block> Algorithm for Cmac<C> {
    ghost runs = { λ mac work. RunsCmac mac work };

    fn feed(&mut self, bytes: &[u8], _out: &mut Vec<u8>) -> Result<(), AllocError> {
        Cmac::feed(self, bytes);
        Ok(())
    }

    #[inline(always)]
    fn finish(self, out: &mut Vec<u8>) -> Result<(), FinishRefused> {
        append(out, &self.code())
    }
}

impl Algorithm for Derived {
    ghost runs = { RunsHkdf };

    // What comes in is passed over.
    fn feed(&mut self, _bytes: &[u8], _out: &mut Vec<u8>) -> Result<(), AllocError> {
        Ok(())
    }

    #[inline(always)]
    fn finish(self, out: &mut Vec<u8>) -> Result<(), FinishRefused> {
        append(out, self.bytes.as_slice())
    }
}
