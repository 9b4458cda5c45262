//! Which operation an algorithm is, and its parameters.

ghost use Rattle.std.specs.Prelude.{◌≡◌, ◌≤◌};
ghost use Rattle.ossl_speed.specs.Message.{message};
ghost use Rattle.ossl_speed.specs.Operations.{bits_of, code_of, hash_code, inner_of, mode_of};

use crate::algorithm::{AesWork, Algorithm, KeySize};
use crate::message::{PIECE, front};
use ossl_base::Bytes;
use ossl_codes::{AesMode, Bits, Code, Direction, KdfMode};
use ossl_digests::Hash;
use ossl_modes::ModeKind;
use ossl_op::Params;
use std::alloc::{AllocError, Global};

fn hash_code(hash: Hash) -> Code
    ensures { result ≡ hash_code hash }
{
    match hash {
        Hash::Sha1 => Code::Sha1,
        Hash::Sha224 => Code::Sha224,
        Hash::Sha256 => Code::Sha256,
        Hash::Sha384 => Code::Sha384,
        Hash::Sha512 => Code::Sha512,
        Hash::Sha512t224 => Code::Sha512t224,
        Hash::Sha512t256 => Code::Sha512t256,
        Hash::Md5 => Code::Md5,
        Hash::Md4 => Code::Md4,
    }
}

fn bits_of(size: KeySize) -> Bits
    ensures { result ≡ bits_of size }
{
    match size {
        KeySize::Bits128 => Bits::B128,
        KeySize::Bits192 => Bits::B192,
        KeySize::Bits256 => Bits::B256,
    }
}

fn mode_of(kind: ModeKind) -> AesMode
    ensures { result ≡ mode_of kind }
{
    match kind {
        ModeKind::Ecb => AesMode::Ecb,
        ModeKind::Cbc => AesMode::Cbc,
        ModeKind::Cfb => AesMode::Cfb,
        ModeKind::Ofb => AesMode::Ofb,
        ModeKind::Ctr => AesMode::Ctr,
    }
}

/// The code of the operation.
pub fn code_of(algorithm: Algorithm) -> Code
    ensures { result ≡ code_of algorithm }
{
    match algorithm {
        Algorithm::Digest(hash) => hash_code(hash),
        Algorithm::Hmac(_) => Code::Hmac,
        Algorithm::Hkdf(_) => Code::Hkdf,
        Algorithm::ChaCha20 => Code::ChaCha20,
        Algorithm::Rc4 => Code::Rc4,
        Algorithm::Aes(size, AesWork::Mode { kind, .. }) => Code::Aes {
            bits: bits_of(size),
            mode: mode_of(kind),
        },
        Algorithm::Aes(size, AesWork::Chain { .. }) => Code::Aes {
            bits: bits_of(size),
            mode: AesMode::Ecb,
        },
        Algorithm::Aes(_, AesWork::Cmac) => Code::Cmac,
        Algorithm::Aes(size, AesWork::Gcm) => Code::Aes {
            bits: bits_of(size),
            mode: AesMode::Ctr,
        },
    }
}

/// The code that it runs on, where it runs on one.
pub fn inner_of(algorithm: Algorithm) -> Option<Code>
    ensures { result ≡ inner_of algorithm }
{
    match algorithm {
        Algorithm::Hmac(hash) | Algorithm::Hkdf(hash) => Some(hash_code(hash)),
        Algorithm::Aes(size, AesWork::Cmac) => Some(Code::Aes {
            bits: bits_of(size),
            mode: AesMode::Cbc,
        }),
        _ => None,
    }
}

// The bytes of its key.
fn key_len(algorithm: Algorithm) -> usize
    ensures { result ≤ PIECE }
{
    match algorithm {
        Algorithm::Digest(_) => 0,
        Algorithm::Hmac(_) => 20,
        Algorithm::Hkdf(_) | Algorithm::ChaCha20 => 32,
        Algorithm::Rc4 => 16,
        Algorithm::Aes(KeySize::Bits128, _) => 16,
        Algorithm::Aes(KeySize::Bits192, _) => 24,
        Algorithm::Aes(KeySize::Bits256, _) => 32,
    }
}

fn is_decryption(algorithm: Algorithm) -> bool {
    matches!(
        algorithm,
        Algorithm::Aes(_, AesWork::Mode { decrypt: true, .. })
    )
}

// The first bytes of a piece.
fn bytes_of(alloc: Global, piece: &[u8], size: usize) -> Result<Option<Bytes>, AllocError>
    requires piece { piece.now ≡ message PIECE }
    requires within { size ≤ PIECE }
{
    let bytes = Vec::from_slice(alloc, front(piece, size))?;
    Ok(Some(Bytes::of(bytes)))
}

/// Its parameters: a key and the like are bytes that count up from 0; a mode has no padding.
pub fn params_of(alloc: Global, algorithm: Algorithm, piece: &[u8]) -> Result<Params, AllocError>
    requires { piece.now ≡ message PIECE }
{
    Ok(Params {
        direction: if is_decryption(algorithm) {
            Direction::Decrypt
        } else {
            Direction::Encrypt
        },
        pad: false,
        key: bytes_of(alloc, piece, key_len(algorithm))?,
        iv: bytes_of(alloc, piece, 16)?,
        salt: bytes_of(alloc, piece, 13)?,
        info: bytes_of(alloc, piece, 10)?,
        mode: KdfMode::Both,
        len: Some(42),
    })
}
