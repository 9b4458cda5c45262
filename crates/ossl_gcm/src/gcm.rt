//! A text through Galois/Counter mode: its start, its pieces, its end.

ghost use Rattle.std.specs.Prelude.{◌≡◌, ℕ, List, [], ◌++◌, map, OnOk, OnErr, IfOk, MatchResult, length};
ghost use Rattle.std.specs.List.{concat};
ghost use Rattle.ossl_gcm.specs.Outcome.{outcome_of, StartsWhole, StartsEarly, KeepsOutcome, KeepsEarly, IsAsBefore};
ghost use Rattle.ossl_gcm.specs.Outcome.{IsIv, RunsThrough};
ghost use Rattle.ossl_gcm.specs.Run.{Finishes};

use crate::kinds::{GcmRefused, IvLength};
use crate::state::{Gcm, Opener, Sealer, Side, Stream};
use ossl_aes::Block;
use std::alloc::AllocError;

impl<C: Block> Gcm<C> {
    /// The start of a text: an IV of 1 to 128 bytes, additional data, and the direction. It takes no memory.
    pub fn new(cipher: C, iv: &[u8], aad: &[u8], decrypt: bool) -> Result<Gcm<C>, IvLength>
        ensures outcome { IfOk result (λ text. StartsWhole C.enc cipher iv.now aad.now decrypt text) }
        ensures early { IfOk result (λ text. StartsEarly C.enc cipher iv.now decrypt text) }
        ensures refused { MatchResult result (λ _. IsIv iv.now) (λ r. ¬ IsIv iv.now × (r.got ≡ length iv.now)) }
    {
        if iv.is_empty() || iv.len() > 128 {
            return Err(IvLength {
                got: iv.len() as u64,
            });
        }
        let stream = Stream::start(cipher, iv, aad);
        if decrypt {
            let side = Side::Decryption(Opener::new(stream));
            Ok(Gcm { side })
        } else {
            let side = Side::Encryption(Sealer::new(stream));
            Ok(Gcm { side })
        }
    }

    /// Takes the next bytes of the text in. An encryption appends the blocks that are whole by now; a decryption
    /// appends nothing.
    pub fn feed(&mut self, bytes: &[u8], out: &mut Vec<u8>) -> Result<(), AllocError>
        // Whatever bytes come yet: what was appended, and what the new state makes of them, is what the old state makes
        // of these bytes and them.
        ensures outcome { OnOk result (KeepsOutcome C.enc self.old out.old.items bytes.now self.new out.new.items) }
        // The same of what may be given before the end, whatever comes of the text: nothing, where it is a decryption.
        ensures early { OnOk result (KeepsEarly C.enc self.old out.old.items bytes.now self.new out.new.items) }
        ensures appends { OnOk result ((given : List ℕ) × (out.new.items ≡ out.old.items ++ given)) }
        ensures err { OnErr result (IsAsBefore C.enc self.old self.new × (out.new.items ≡ out.old.items)) }
    {
        match &mut self.side {
            Side::Encryption(sealer) => sealer.feed(bytes, out),
            Side::Decryption(opener) => opener.feed(bytes, out),
        }
    }

    /// The end of the text: appends what is left of it, or refuses and appends nothing. A refusal other than of memory
    /// is that of the standard over all bytes fed.
    pub fn finish(self, out: &mut Vec<u8>) -> Result<(), GcmRefused>
        ensures { Finishes out.old.items out.new.items result (outcome_of C.enc self []) }
    {
        match self.side {
            Side::Encryption(sealer) => sealer.finish(out),
            Side::Decryption(opener) => opener.finish(out),
        }
    }
}

/// The rest of a text in pieces, cut in any way: appends what the text of the pieces joined becomes. Where the end is
/// refused, what was appended is a beginning of the ciphertext, and of a decryption nothing.
pub fn run<C: Block>(text: Gcm<C>, pieces: &[&[u8]], out: &mut Vec<u8>) -> Result<(), GcmRefused>
    ensures { RunsThrough C.enc text (concat (map (λ piece. piece.now) pieces.now)) out.old.items out.new.items result }
{
    let mut text = text;
    for piece in pieces {
        match text.feed(piece, out) {
            Ok(()) => {}
            Err(_) => return Err(GcmRefused::NoMemory),
        }
    }
    text.finish(out)
}
