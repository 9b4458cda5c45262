//! A text through AES in CBC mode with padding, under a key out of a password.

ghost use Rattle.std.specs.Prelude.{◌≡◌, ◌≤◌, ◌+◌, ◌*◌, ◌/◌, length, take, drop};
ghost use Rattle.ossl_aes.specs.Cipher.{encrypted, decrypted};
ghost use Rattle.ossl_aes.specs.State.{IsSize};
ghost use Rattle.ossl_salted.specs.Course.{Runs};
ghost use Rattle.ossl_salted.specs.Ends.{status_of};
ghost use Rattle.ossl_salted.specs.File.{key_and_iv};
ghost use Rattle.ossl_salted.specs.Flow.{aes_due, cbc_due};
ghost use Rattle.ossl_salted.specs.Outside.{reading, writing};
ghost use Rattle.ossl_salted.specs.Words.{bits_in};

use crate::end::End;
use crate::job::KeySize;
use crate::stream::stream;
use ossl_aes::Aes;
use ossl_base::{Sink, Source};
use ossl_modes::{Mode, ModeKind};

/// In which direction a text goes, behind which head, and how many bytes of it there may be.
#[derive(Drop)]
pub struct Way {
    pub decrypt: bool,
    pub head: Vec<u8>,
    pub room: u64,
}

// The bytes of an IV that stands at a place.
fn iv_at(material: &[u8; 48], place: usize) -> [u8; 16]
    requires { place + 16 ≤ 48 }
    ensures { result ≡ take 16 (drop place material.now) }
{
    let mut iv = [0; 16];
    iv.copy_from_slice(&material[place..place + 16]);
    iv
}

// All that the source has left, under a key of `NK` words.
fn through_aes<const NK: usize, const WORDS: usize, S: Source, K: Sink>(
    key: &[u8],
    iv: [u8; 16],
    way: Way,
    source: &mut S,
    sink: &mut K,
) -> End
    requires size { IsSize NK WORDS }
    requires fits { length key.now ≡ 4 * NK }
    ensures { Runs (cbc_due (encrypted NK key.now) (decrypted NK key.now) way.decrypt iv way.head.items way.room)
        (status_of result) (reading S.left S.faults source.old source.new)
        (writing K.taken K.faults sink.old sink.new) }
{
    let Way {
        decrypt,
        head,
        room,
    } = way;
    let cipher = Aes::<NK, WORDS>::expand(key);
    let mode = Mode::new(cipher, ModeKind::Cbc, iv, decrypt, true);
    stream(mode, head, source, sink, room)
}

/// All that the source has left, under the key and the IV in the first bytes.
pub fn through<S: Source, K: Sink>(
    material: &[u8; 48],
    size: KeySize,
    way: Way,
    source: &mut S,
    sink: &mut K,
) -> End
    ensures { let bits = bits_in size in
        Runs (aes_due bits (take (bits / 8 + 16) material.now) way.decrypt way.head.items way.room) (status_of result)
        (reading S.left S.faults source.old source.new) (writing K.taken K.faults sink.old sink.new) }
{
    match size {
        KeySize::Bits128 => {
            through_aes::<4, 44, S, K>(&material[..16], iv_at(material, 16), way, source, sink)
        }
        KeySize::Bits192 => {
            through_aes::<6, 52, S, K>(&material[..24], iv_at(material, 24), way, source, sink)
        }
        KeySize::Bits256 => {
            through_aes::<8, 60, S, K>(&material[..32], iv_at(material, 32), way, source, sink)
        }
    }
}
