ghost use Rattle.std.specs.Prelude.{◌≡◌, ◌≤◌, ◌*◌, IfOk, if◌then◌else◌};
ghost use Rattle.ossl_aes.specs.State.{IsSize};
ghost use Rattle.ossl_cmac.specs.Cmac.{cmac};
ghost use Rattle.ossl_speed.specs.Bytes.{bytes_of};
ghost use Rattle.ossl_speed.specs.Message.{message};
ghost use Rattle.ossl_speed.specs.Values.{last, aes_value};
ghost use Rattle.ossl_speed.specs.Aes.{repeated, mode_text, gcm_text};

use crate::algorithm::AesWork;
use crate::cipher::end_of_text;
use crate::intake::take_message;
use crate::message::{PIECE, front};
use crate::value::{Value, first_bytes};
use ossl_aes::{Aes, Block};
use ossl_cmac::Cmac;
use ossl_gcm::Gcm;
use ossl_modes::{Mode, ModeKind};
use std::alloc::{AllocError, Global};

/// What AES with a key of `NK` words gives of the message of so many bytes.
pub fn aes_value<const NK: usize, const WORDS: usize>(
    alloc: Global,
    work: AesWork,
    piece: &[u8],
    length: usize,
) -> Result<Value, AllocError>
    requires size { IsSize NK WORDS }
    requires piece { piece.now ≡ message PIECE }
    ensures { IfOk result (λ value. bytes_of value ≡ aes_value NK work (message length)) }
{
    let cipher: Aes<NK, WORDS> = Aes::expand(front(piece, 4 * NK));
    match work {
        AesWork::Mode { kind, decrypt } => {
            let text = text_of(alloc, cipher, kind, decrypt, piece, length)?;
            Ok(Value::Text(text))
        }
        AesWork::Chain { decrypt } => {
            let block = chained(&cipher, decrypt, first_bytes(piece), length / 16);
            Ok(Value::Block(block))
        }
        AesWork::Cmac => Ok(Value::Block(code_of(cipher, piece, length)?)),
        AesWork::Gcm => {
            let sealed = sealed_text(alloc, cipher, piece, length)?;
            Ok(Value::Text(sealed))
        }
    }
}

// The end of the message's text in a mode.
#[inline(always)]
fn text_of<C: Block>(
    alloc: Global,
    cipher: C,
    kind: ModeKind,
    decrypt: bool,
    piece: &[u8],
    length: usize,
) -> Result<Vec<u8>, AllocError>
    requires { piece.now ≡ message PIECE }
    ensures { IfOk result (λ end. end.items
        ≡ last 64 (mode_text (C.enc cipher) (C.dec cipher) kind decrypt (message length))) }
{
    let mode = Mode::new(cipher, kind, first_bytes(piece), decrypt, false);
    end_of_text(alloc, mode, piece, length)
}

// The end of the message sealed.
#[inline(always)]
fn sealed_text<C: Block>(
    alloc: Global,
    cipher: C,
    piece: &[u8],
    length: usize,
) -> Result<Vec<u8>, AllocError>
    requires { piece.now ≡ message PIECE }
    ensures { IfOk result (λ end. end.items ≡ last 64 (gcm_text (C.enc cipher) (message length))) }
{
    let iv: [u8; 12] = first_bytes(piece);
    match Gcm::new(cipher, &iv, &[], false) {
        Ok(gcm) => end_of_text(alloc, gcm, piece, length),
        Err(_) => unreachable!(),
    }
}

// The block function alone, so many times.
#[inline(always)]
fn chained<C: Block>(cipher: &C, decrypt: bool, first: [u8; 16], count: usize) -> [u8; 16]
    ensures { result ≡ repeated (if decrypt then C.dec cipher.now else C.enc cipher.now) count first }
{
    if decrypt {
        decrypted(cipher, first, count)
    } else {
        encrypted(cipher, first, count)
    }
}

fn encrypted<C: Block>(cipher: &C, first: [u8; 16], count: usize) -> [u8; 16]
    ensures { result ≡ repeated (C.enc cipher.now) count first }
{
    let mut block = first;
    for _i in 0..count {
        let next = cipher.encrypt(block);
        block = next;
    }
    block
}

fn decrypted<C: Block>(cipher: &C, first: [u8; 16], count: usize) -> [u8; 16]
    ensures { result ≡ repeated (C.dec cipher.now) count first }
{
    let mut block = first;
    for _i in 0..count {
        let next = cipher.decrypt(block);
        block = next;
    }
    block
}

#[inline(always)]
fn code_of<C: Block>(cipher: C, piece: &[u8], length: usize) -> Result<[u8; 16], AllocError>
    requires { piece.now ≡ message PIECE }
    ensures { IfOk result (λ code. code ≡ cmac (C.enc cipher) (message length)) }
{
    let mut mac = Cmac::new(cipher);
    take_message(&mut mac, piece, length)?;
    Ok(mac.finish())
}
