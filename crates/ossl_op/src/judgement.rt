//! Whether an operation may begin.

ghost use Rattle.std.specs.Prelude.{◌≡◌, not, find};
ghost use Rattle.ossl_op.specs.Begins.{begins, bytes_of, is_given, limit_passed};
ghost use Rattle.ossl_op.specs.Laws.{EndsByCode};
ghost use Rattle.ossl_op.specs.Tables.{needed};

use crate::needs::needed;
use crate::params::{BeginRefused, Params};
use crate::tables::{inner_hash, takes_inner, takes_iv, takes_key};
use ossl_base::Bytes;
use ossl_codes::{Code, KdfMode, Param};

/// Whether an operation of this code may begin: the first refusal in the order of `BeginRefused`, if there is one.
/// `inner` is the digest or cipher that a MAC or a key derivation runs on. It takes no memory.
///
/// Where the operation may begin, its standard's result of whatever bytes is a text, or one of the refusals of its
/// code: for ECB and CBC a last block that is not whole or ends in no padding, for ChaCha20 the end of its key stream.
#[inline(never)]
#[tactic(auto, using(crate::proofs::CodeLaws::ends))]
pub fn judge(code: Code, inner: Option<Code>, params: &Params) -> Result<(), BeginRefused>
    ensures begins { result ≡ begins code inner params.now }
    ensures ends { EndsByCode code inner params.now }
{
    if let Some(which) = missing(code, inner, params) {
        return Err(BeginRefused::MissingParam { which });
    }
    if !takes_inner(code, inner) {
        return Err(BeginRefused::WrongInner);
    }
    let got = bytes_of(&params.key).len() as u64;
    if !takes_key(code, inner, got) {
        return Err(BeginRefused::KeyLength { got });
    }
    let got = bytes_of(&params.iv).len() as u64;
    if !takes_iv(code, got) {
        return Err(BeginRefused::IvLength { got });
    }
    match limit_passed(code, inner, params.mode, params.len.unwrap_or(0)) {
        Some(limit) => Err(BeginRefused::TooLong { limit }),
        None => Ok(()),
    }
}

// The first parameter that is needed and is not there.
fn missing(code: Code, inner: Option<Code>, params: &Params) -> Option<Param>
    ensures { result ≡ find (λ which. not (is_given inner params.now which)) (needed code params.now.mode) }
{
    needed(code, params.mode)
        .iter()
        .copied()
        .find(|which| !is_given(inner, params, *which))
}

fn is_given(inner: Option<Code>, params: &Params, which: Param) -> bool
    ensures { result ≡ is_given inner params.now which }
{
    match which {
        Param::Key => params.key.is_some(),
        Param::Iv => params.iv.is_some(),
        Param::Inner => inner.is_some(),
        Param::Len => params.len.is_some(),
    }
}

// The bytes of a parameter, and none where it is absent.
pub(crate) fn bytes_of(given: &Option<Bytes>) -> &[u8]
    ensures { result.now ≡ bytes_of given.now }
{
    match given {
        Some(bytes) => bytes.as_slice(),
        None => &[],
    }
}

// The limit of an expansion, where its length is above it.
fn limit_passed(code: Code, inner: Option<Code>, mode: KdfMode, len: u64) -> Option<u64>
    ensures { result ≡ limit_passed code inner mode len }
{
    if code != Code::Hkdf || mode == KdfMode::Extract {
        return None;
    }
    let limit = 255 * inner_hash(inner)?.output_len() as u64;
    if len > limit { Some(limit) } else { None }
}
