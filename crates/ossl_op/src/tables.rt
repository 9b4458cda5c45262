//! What a code stands for in the crates of its algorithm, and what it takes.

ghost use Rattle.std.specs.Prelude.{◌≡◌, ◌↔◌, IfSome, IsSome};
ghost use Rattle.std.specs.Option.{option_and_then};
ghost use Rattle.ossl_codes.specs.Code.{operation_of};
ghost use Rattle.ossl_codes.specs.declared.code.Operation.{Operation};
ghost use Rattle.ossl_op.specs.Laws.{HasLengthsOf};
ghost use Rattle.ossl_op.specs.Standard.{is_decrypt};
ghost use Rattle.ossl_op.specs.Tables.{cbc_bits, hash_of, hkdf_mode, key_len, kind_of, takes_inner, takes_iv};
ghost use Rattle.ossl_op.specs.Tables.{takes_key};

use ossl_codes::{AesMode, Bits, Code, Direction, KdfMode};
use ossl_digests::Hash;
use ossl_hkdf::HkdfMode;
use ossl_modes::ModeKind;

/// The hash that a code stands for; `None` for what is no digest. Codes and hashes tell the same lengths.
pub fn hash_of(code: Code) -> Option<Hash>
    ensures value { result ≡ hash_of code }
    ensures digests_only { IsSome result ↔ (operation_of code ≡ Operation.Digest) }
    ensures lengths { IfSome result (HasLengthsOf code) }
{
    match code {
        Code::Sha1 => Some(Hash::Sha1),
        Code::Sha224 => Some(Hash::Sha224),
        Code::Sha256 => Some(Hash::Sha256),
        Code::Sha384 => Some(Hash::Sha384),
        Code::Sha512 => Some(Hash::Sha512),
        Code::Sha512t224 => Some(Hash::Sha512t224),
        Code::Sha512t256 => Some(Hash::Sha512t256),
        Code::Md5 => Some(Hash::Md5),
        Code::Md4 => Some(Hash::Md4),
        Code::Aes { .. } | Code::ChaCha20 | Code::Rc4 | Code::Hmac | Code::Cmac | Code::Hkdf =>
            None,
    }
}

// The hash that HMAC or HKDF runs on.
pub(crate) fn inner_hash(inner: Option<Code>) -> Option<Hash>
    ensures { result ≡ option_and_then hash_of inner }
{
    hash_of(inner?)
}

// The key length of the cipher that CMAC runs on.
pub(crate) fn inner_bits(inner: Option<Code>) -> Option<Bits>
    ensures { result ≡ option_and_then cbc_bits inner }
{
    match inner {
        Some(
            Code::Aes {
                bits,
                mode: AesMode::Cbc,
            },
        ) => Some(bits),
        _ => None,
    }
}

// A key's length in bytes.
fn key_len(bits: Bits) -> u64
    ensures { result ≡ key_len bits }
{
    match bits {
        Bits::B128 => 16,
        Bits::B192 => 24,
        Bits::B256 => 32,
    }
}

// The mode of operation.
pub(crate) fn kind_of(mode: AesMode) -> ModeKind
    ensures { result ≡ kind_of mode }
{
    match mode {
        AesMode::Ecb => ModeKind::Ecb,
        AesMode::Cbc => ModeKind::Cbc,
        AesMode::Cfb => ModeKind::Cfb,
        AesMode::Ofb => ModeKind::Ofb,
        AesMode::Ctr => ModeKind::Ctr,
    }
}

// The direction as the modes take it.
pub(crate) fn is_decrypt(direction: Direction) -> bool
    ensures { result ≡ is_decrypt direction }
{
    match direction {
        Direction::Encrypt => false,
        Direction::Decrypt => true,
    }
}

// Which of its steps HKDF takes.
pub(crate) fn hkdf_mode(mode: KdfMode) -> HkdfMode
    ensures { result ≡ hkdf_mode mode }
{
    match mode {
        KdfMode::Both => HkdfMode::Both,
        KdfMode::Extract => HkdfMode::Extract,
        KdfMode::Expand => HkdfMode::Expand,
    }
}

pub(crate) fn takes_inner(code: Code, inner: Option<Code>) -> bool
    ensures { result ≡ takes_inner code inner }
{
    match code {
        Code::Hmac | Code::Hkdf => inner_hash(inner).is_some(),
        Code::Cmac => inner_bits(inner).is_some(),
        _ => true,
    }
}

pub(crate) fn takes_key(code: Code, inner: Option<Code>, bytes: u64) -> bool
    ensures { result ≡ takes_key code inner bytes }
{
    match code {
        Code::Aes { bits, .. } => bytes == key_len(bits),
        Code::Cmac => match inner_bits(inner) {
            Some(bits) => bytes == key_len(bits),
            None => true,
        },
        Code::ChaCha20 => bytes == 32,
        Code::Rc4 => 1 <= bytes && bytes <= 256,
        _ => true,
    }
}

pub(crate) fn takes_iv(code: Code, bytes: u64) -> bool
    ensures { result ≡ takes_iv code bytes }
{
    match code {
        Code::Aes {
            mode: AesMode::Ecb,
            ..
        } => true,
        Code::Aes { .. } | Code::ChaCha20 => bytes == 16,
        _ => true,
    }
}
