ghost use Rattle.std.specs.Prelude.{◌≡◌, ◌<◌, ◌≤◌, ℕ, List, [], ◌∷◌, ◌++◌, IfOk};
ghost use Rattle.ossl_digests.specs.declared.hash.Hash.{Hash as TheHash};
ghost use Rattle.ossl_hmac.specs.Hmac.{hmac};
ghost use Rattle.ossl_hmac.specs.Holds.{Holds};
ghost use Rattle.ossl_hkdf.specs.Hkdf.{limit, IsTooLong, blocks, expand, hkdf};
ghost use Rattle.ossl_hkdf.specs.Gives.{Gives};

use crate::mode::{HkdfMode, HkdfRefused};
use ossl_digests::{Hash, HashValue};
use ossl_hmac::Hmac;
use std::alloc::{AllocError, Global};

/// Bytes of key material out of a key, a salt and an info (RFC 5869). Without a salt pass an empty one.
pub fn hkdf(
    alloc: Global,
    mode: HkdfMode,
    hash: Hash,
    key: &[u8],
    salt: &[u8],
    info: &[u8],
    len: u64,
) -> Result<Vec<u8>, HkdfRefused>
    ensures too_long { IsTooLong mode hash len → result ≡ Err (HkdfRefused.TooLong (limit hash)) }
    ensures given { ¬ IsTooLong mode hash len → Gives result (hkdf mode hash key.now salt.now info.now len) }
{
    match mode {
        HkdfMode::Extract => copied(alloc, code_of(hash, salt, key).as_slice()),
        HkdfMode::Expand => expand(alloc, hash, key, info, len),
        HkdfMode::Both => expand(alloc, hash, code_of(hash, salt, key).as_slice(), info, len),
    }
}

fn copied(alloc: Global, bytes: &[u8]) -> Result<Vec<u8>, HkdfRefused>
    ensures { Gives result bytes.now }
{
    match Vec::from_slice(alloc, bytes) {
        Ok(copy) => Ok(copy),
        Err(_) => Err(HkdfRefused::NoMemory),
    }
}

// The HMAC of a whole text.
fn code_of(hash: Hash, key: &[u8], text: &[u8]) -> HashValue
    ensures { result ≡ hmac hash key.now text.now }
{
    Hmac::new(hash, key).code_of(text)
}

// The expansion of a pseudorandom key (RFC 5869, 2.3).
fn expand(
    alloc: Global,
    hash: Hash,
    key: &[u8],
    info: &[u8],
    len: u64,
) -> Result<Vec<u8>, HkdfRefused>
    ensures too_long { limit hash < len → result ≡ Err (HkdfRefused.TooLong (limit hash)) }
    ensures given { len ≤ limit hash → Gives result (expand hash key.now info.now len) }
{
    let size = hash.output_len();
    let limit = 255 * size as u64;
    if len > limit {
        return Err(HkdfRefused::TooLong { limit });
    }
    match blocks(alloc, hash, key, info, (len as usize).div_ceil(size)) {
        Ok(mut bytes) => {
            bytes.truncate(len as usize);
            Ok(bytes)
        }
        Err(_) => Err(HkdfRefused::NoMemory),
    }
}

// The first blocks T(1), T(2) .. T(count), joined. The padded keys are taken in once.
fn blocks(
    alloc: Global,
    hash: Hash,
    key: &[u8],
    info: &[u8],
    count: usize,
) -> Result<Vec<u8>, AllocError>
    requires { count ≤ 255 }
    ensures { IfOk result (λ bytes. bytes.items ≡ blocks hash key.now info.now count) }
{
    let size = hash.output_len();
    let keyed = Hmac::new(hash, key);
    let mut bytes = Vec::with_capacity(alloc, count * size)?;
    for i in 0..count {
        let before = bytes.len().saturating_sub(size);
        let block = next_block(&keyed, &bytes.as_slice()[before..], info, i as u8 + 1);
        bytes.extend_from_slice(block.as_slice())?;
    }
    Ok(bytes)
}

// The block T(number), after the block before it.
fn next_block(keyed: &Hmac, before: &[u8], info: &[u8], number: u8) -> HashValue
    ensures { (hash : TheHash) (key : List ℕ) → Holds keyed.now hash key []
        → result ≡ hmac hash key (before.now ++ info.now ++ number ∷ []) }
{
    let mut mac = keyed.copy();
    mac.feed(before);
    mac.feed(info);
    mac.feed(&[number]);
    mac.finish()
}
