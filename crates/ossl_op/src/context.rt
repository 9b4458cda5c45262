//! Operation contexts: one type for every algorithm.

ghost use Rattle.std.specs.Prelude.{◌≡◌, OnOk, OnErr, IfErr};

use crate::algorithm::Algorithm;
use crate::derived::Derived;
use ossl_aes::Aes;
use ossl_chacha::ChaCha;
use ossl_cmac::Cmac;
use ossl_digests::Digester;
use ossl_hmac::Hmac;
use ossl_legacy::Rc4;
use ossl_modes::{FinishRefused, Mode};
use std::alloc::AllocError;

// The state of each algorithm. A cipher has a variant for each key size, so that no block asks which it is.
#[derive(Drop)]
pub(crate) enum State {
    Digest(Digester),
    Aes128(Mode<Aes<4, 44>>),
    Aes192(Mode<Aes<6, 52>>),
    Aes256(Mode<Aes<8, 60>>),
    ChaCha20(ChaCha),
    Rc4(Rc4),
    Hmac(Hmac),
    Cmac128(Cmac<Aes<4, 44>>),
    Cmac192(Cmac<Aes<6, 52>>),
    Cmac256(Cmac<Aes<8, 60>>),
    Hkdf(Derived),
}

/// An operation under way: it is fed bytes in any pieces, and gives its code's standard result of them all.
///
/// Contracts see what it computes, the bytes fed and the text given, as `Runs context work`.
#[derive(Drop)]
pub struct OpCtx {
    pub(crate) state: State,
}

impl OpCtx {
    ghost use Rattle.ossl_op.specs.Work.{Appends, CarriesOn, EndsRefused, EndsWell, GaveBeginning};
    ghost use Rattle.ossl_op.specs.Running.{Runs};

    /// Takes the next bytes in, and appends what text is known by now: ciphers hold back what may yet be their last
    /// block, digests, codes and derivations give nothing before their end, and HKDF passes the bytes over. Where
    /// memory is refused, the context and `out` are as they were.
    #[inline(never)]
    pub fn feed(&mut self, bytes: &[u8], out: &mut Vec<u8>) -> Result<(), AllocError>
        ensures appends { Appends out.old.items out.new.items }
        ensures runs { OnOk result (CarriesOn (Runs self.old) (Runs self.new) bytes.now out.old.items out.new.items) }
        ensures unchanged { OnErr result ((self.new ≡ self.old) × (out.new.items ≡ out.old.items)) }
    {
        match &mut self.state {
            State::Digest(digester) => Algorithm::feed(digester, bytes, out),
            State::Aes128(mode) => Algorithm::feed(mode, bytes, out),
            State::Aes192(mode) => Algorithm::feed(mode, bytes, out),
            State::Aes256(mode) => Algorithm::feed(mode, bytes, out),
            State::ChaCha20(stream) => Algorithm::feed(stream, bytes, out),
            State::Rc4(stream) => stream.feed(bytes, out),
            State::Hmac(mac) => Algorithm::feed(mac, bytes, out),
            State::Cmac128(mac) => Algorithm::feed(mac, bytes, out),
            State::Cmac192(mac) => Algorithm::feed(mac, bytes, out),
            State::Cmac256(mac) => Algorithm::feed(mac, bytes, out),
            State::Hkdf(derived) => derived.feed(bytes, out),
        }
    }

    /// Appends what is left of the standard's result of all bytes fed, or refuses as the standard does and appends
    /// nothing. Memory may be refused in place of any answer that appends.
    #[inline(always)]
    pub fn finish(self, out: &mut Vec<u8>) -> Result<(), FinishRefused>
        ensures appends { Appends out.old.items out.new.items }
        ensures accepted { OnOk result (EndsWell (Runs self) out.old.items out.new.items) }
        ensures refused { IfErr result (EndsRefused (Runs self)) }
        ensures unchanged { OnErr result (out.new.items ≡ out.old.items) }
        ensures beginning { OnErr result (GaveBeginning (Runs self)) }
    {
        match self.state {
            State::Digest(digester) => Algorithm::finish(digester, out),
            State::Aes128(mode) => Algorithm::finish(mode, out),
            State::Aes192(mode) => Algorithm::finish(mode, out),
            State::Aes256(mode) => Algorithm::finish(mode, out),
            State::ChaCha20(stream) => Algorithm::finish(stream, out),
            State::Rc4(stream) => stream.finish(out),
            State::Hmac(mac) => Algorithm::finish(mac, out),
            State::Cmac128(mac) => Algorithm::finish(mac, out),
            State::Cmac192(mac) => Algorithm::finish(mac, out),
            State::Cmac256(mac) => Algorithm::finish(mac, out),
            State::Hkdf(derived) => derived.finish(out),
        }
    }
}
