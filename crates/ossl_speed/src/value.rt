ghost use Rattle.std.specs.Prelude.{◌≡◌, ◌≤◌, IfOk};
ghost use Rattle.ossl_digests.specs.Digest.{digest};
ghost use Rattle.ossl_hmac.specs.Hmac.{hmac};
ghost use Rattle.ossl_hkdf.specs.Hkdf.{hkdf};
ghost use Rattle.ossl_speed.specs.Message.{message};
ghost use Rattle.ossl_speed.specs.Values.{value_of};
ghost use Rattle.ossl_speed.specs.Bytes.{bytes_of};

use crate::aes::aes_value;
use crate::algorithm::{Algorithm, KeySize};
use crate::cipher::end_of_text;
use crate::intake::take_message;
use crate::message::{PIECE, front};
use ossl_chacha::ChaCha;
use ossl_digests::{Digester, Hash, HashValue};
use ossl_hkdf::{HkdfMode, hkdf};
use ossl_hmac::Hmac;
use ossl_legacy::Rc4;
use std::alloc::{AllocError, Global};

/// The bytes of the key of HMAC and of RC4.
const HMAC_KEY: usize = 20;

const RC4_KEY: usize = 16;

/// The bytes of HKDF's salt, of its info and of what is asked for.
const SALT: usize = 13;

const INFO: usize = 10;

const DERIVED: u64 = 42;

/// What an algorithm gives.
#[derive(Drop)]
pub enum Value {
    Digest(HashValue),
    Block([u8; 16]),
    Text(Vec<u8>),
}

impl Value {
    /// Its bytes.
    pub fn as_slice(&self) -> &[u8]
        ensures { result.now ≡ bytes_of self.now }
    {
        match self {
            Value::Digest(value) => value.as_slice(),
            Value::Block(block) => block,
            Value::Text(bytes) => bytes.as_slice(),
        }
    }
}

/// What the algorithm gives of the message of so many bytes.
#[inline(always)]
pub fn value_of(
    alloc: Global,
    algorithm: Algorithm,
    piece: &[u8],
    length: usize,
) -> Result<Value, AllocError>
    requires { piece.now ≡ message PIECE }
    ensures { IfOk result (λ value. bytes_of value ≡ value_of algorithm (message length)) }
{
    match algorithm {
        Algorithm::Digest(hash) => Ok(Value::Digest(digest_of(hash, piece, length)?)),
        Algorithm::Hmac(hash) => Ok(Value::Digest(code_of(hash, piece, length)?)),
        Algorithm::Hkdf(hash) => Ok(Value::Text(derived(alloc, hash, piece, length)?)),
        Algorithm::ChaCha20 => {
            let cipher = ChaCha::new(first_bytes(piece), first_bytes(piece));
            Ok(Value::Text(end_of_text(alloc, cipher, piece, length)?))
        }
        Algorithm::Rc4 => {
            let Ok(cipher) = Rc4::new(front(piece, RC4_KEY)) else {
                unreachable!()
            };
            Ok(Value::Text(end_of_text(alloc, cipher, piece, length)?))
        }
        Algorithm::Aes(size, work) => match size {
            KeySize::Bits128 => aes_value::<4, 44>(alloc, work, piece, length),
            KeySize::Bits192 => aes_value::<6, 52>(alloc, work, piece, length),
            KeySize::Bits256 => aes_value::<8, 60>(alloc, work, piece, length),
        },
    }
}

#[inline(always)]
fn digest_of(hash: Hash, piece: &[u8], length: usize) -> Result<HashValue, AllocError>
    requires { piece.now ≡ message PIECE }
    ensures { IfOk result (λ value. value ≡ digest hash (message length)) }
{
    let mut digester = Digester::new(hash);
    take_message(&mut digester, piece, length)?;
    Ok(digester.finish())
}

#[inline(always)]
fn code_of(hash: Hash, piece: &[u8], length: usize) -> Result<HashValue, AllocError>
    requires { piece.now ≡ message PIECE }
    ensures { IfOk result (λ value. value ≡ hmac hash (message 20) (message length)) }
{
    let mut mac = Hmac::new(hash, front(piece, HMAC_KEY));
    take_message(&mut mac, piece, length)?;
    Ok(mac.finish())
}

fn derived(alloc: Global, hash: Hash, piece: &[u8], length: usize) -> Result<Vec<u8>, AllocError>
    requires { piece.now ≡ message PIECE }
    ensures { IfOk result (λ bytes. bytes.items
        ≡ hkdf HkdfMode.Both hash (message length) (message 13) (message 10) 42) }
{
    let mut key = Vec::new(alloc);
    take_message(&mut key, piece, length)?;
    let derived = hkdf(
        alloc,
        HkdfMode::Both,
        hash,
        key.as_slice(),
        front(piece, SALT),
        front(piece, INFO),
        DERIVED,
    );
    match derived {
        Ok(bytes) => Ok(bytes),
        // Every hash allows 42 bytes, so memory is what lacks.
        Err(_) => Err(AllocError),
    }
}

/// The message of as many bytes as are wanted, as an array.
pub fn first_bytes<const N: usize>(piece: &[u8]) -> [u8; N]
    requires piece { piece.now ≡ message PIECE }
    requires within { N ≤ PIECE }
    ensures { result ≡ message N }
{
    let mut bytes = [0; N];
    bytes.copy_from_slice(front(piece, N));
    bytes
}
