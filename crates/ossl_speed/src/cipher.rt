ghost use Rattle.std.specs.Prelude.{◌≡◌, ℕ, List, [], ◌++◌, OnOk, OnErr, IfOk};
ghost use Rattle.std.specs.declared.vec.Vec.{Vec as TheVec};
ghost use Rattle.ossl_speed.specs.Message.{message};
ghost use Rattle.ossl_speed.specs.Values.{last};
ghost use Rattle.ossl_speed.specs.Streams.{rc4_text, chacha_text};

use crate::intake::{Intake, take_message};
use crate::message::PIECE;
use ossl_aes::Block;
use ossl_chacha::ChaCha;
use ossl_gcm::Gcm;
use ossl_legacy::Rc4;
use ossl_modes::Mode;
use std::alloc::{AllocError, Global};

/// The bytes of a text that are its value.
pub const KEPT: usize = 64;

/// A cipher whose text comes in pieces.
pub trait Cipher: Drop {
    // The text of the bytes that come yet.
    ghost text: { Self → List ℕ → List ℕ };

    /// Appends text of the bytes. What is not given yet comes later.
    fn crypt(&mut self, bytes: &[u8], out: &mut Vec<u8>) -> Result<(), AllocError>
        ensures text { OnOk result
            ((rest : List ℕ) → out.old.items ++ text self.old (bytes.now ++ rest) ≡ out.new.items
            ++ text self.new rest) }
        ensures appends { OnOk result ((given : List ℕ) × (out.new.items ≡ out.old.items ++ given)) }
        ensures err { OnErr result (out.new.items ≡ out.old.items) };

    /// Appends the text that is left.
    fn end(self, out: &mut Vec<u8>) -> Result<(), AllocError>
        ensures text { OnOk result (out.new.items ≡ out.old.items ++ text self []) }
        ensures err { OnErr result (out.new.items ≡ out.old.items) };
}

impl Cipher for ChaCha {
    ghost text = { chacha_text };

    #[inline(always)]
    fn crypt(&mut self, bytes: &[u8], out: &mut Vec<u8>) -> Result<(), AllocError> {
        self.feed(bytes, out)
    }

    fn end(self, _out: &mut Vec<u8>) -> Result<(), AllocError> {
        Ok(())
    }
}

impl Cipher for Rc4 {
    ghost text = { rc4_text };

    #[inline(always)]
    fn crypt(&mut self, bytes: &[u8], out: &mut Vec<u8>) -> Result<(), AllocError> {
        self.apply(bytes, out)
    }

    fn end(self, _out: &mut Vec<u8>) -> Result<(), AllocError> {
        Ok(())
    }
}

impl<C: Block> Cipher for Mode<C> {
    ghost use Rattle.ossl_speed.specs.Streams.{text_of_mode};

    ghost text = { λ mode bytes. text_of_mode mode bytes };

    #[inline(always)]
    fn crypt(&mut self, bytes: &[u8], out: &mut Vec<u8>) -> Result<(), AllocError> {
        self.feed(bytes, out)
    }

    fn end(self, out: &mut Vec<u8>) -> Result<(), AllocError> {
        match self.finish(out) {
            Ok(()) => Ok(()),
            // The words ask for whole blocks where the mode wants them, so memory is what lacks.
            Err(_) => Err(AllocError),
        }
    }
}

impl<C: Block> Cipher for Gcm<C> {
    ghost use Rattle.ossl_speed.specs.Streams.{text_of_gcm};

    ghost text = { λ gcm bytes. text_of_gcm C.enc gcm bytes };

    #[inline(always)]
    fn crypt(&mut self, bytes: &[u8], out: &mut Vec<u8>) -> Result<(), AllocError> {
        self.feed(bytes, out)
    }

    fn end(self, out: &mut Vec<u8>) -> Result<(), AllocError> {
        match self.finish(out) {
            Ok(()) => Ok(()),
            // A message is shorter than the counter reaches, so memory is what lacks.
            Err(_) => Err(AllocError),
        }
    }
}

// A cipher at work, with the text's last bytes.
#[derive(Drop)]
struct Sealing<C> {
    cipher: C,
    out: Vec<u8>,
}

impl<C: Cipher> Intake for Sealing<C> {
    ghost use Rattle.ossl_speed.specs.Streams.{IsSealingFed};
    ghost use Rattle.ossl_speed.specs.StreamLaws.{sealing-nothing, sealing-joined};

    ghost fed = { λ a x b. IsSealingFed (C.text a.cipher) a.out.items x (C.text b.cipher) b.out.items };

    ghost nothing = { λ a. sealing-nothing (C.text a.cipher) a.out.items };

    ghost joined = { λ a b c x y. sealing-joined (C.text a.cipher) (C.text b.cipher) (C.text c.cipher) a.out.items
        b.out.items c.out.items x y };

    #[inline(always)]
    fn take_piece(&mut self, bytes: &[u8]) -> Result<(), AllocError> {
        keep_last(&mut self.out);
        self.cipher.crypt(bytes, &mut self.out)
    }
}

/// Drops all but the last bytes.
pub fn keep_last(out: &mut Vec<u8>)
    ensures { out.new.items ≡ last 64 out.old.items }
{
    if out.len() > KEPT {
        let over = out.len() - KEPT;
        out.copy_within(over.., 0);
        out.truncate(KEPT);
    }
}

/// The last bytes of the text of the message of so many bytes.
pub fn end_of_text<C: Cipher>(
    alloc: Global,
    cipher: C,
    piece: &[u8],
    length: usize,
) -> Result<Vec<u8>, AllocError>
    requires { piece.now ≡ message PIECE }
    ensures { IfOk result (λ end. end.items ≡ last 64 (C.text cipher (message length))) }
{
    let out = Vec::with_capacity(alloc, PIECE + KEPT)?;
    let mut sealing = Sealing { cipher, out };
    take_message(&mut sealing, piece, length)?;
    let Sealing { cipher, mut out } = sealing;
    cipher.end(&mut out)?;
    keep_last(&mut out);
    Ok(out)
}
