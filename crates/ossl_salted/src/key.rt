//! The key and the IV out of a password.

ghost use Rattle.std.specs.Prelude.{◌≡◌, ◌≤◌, ◌+◌, ◌/◌, length, take, drop};
ghost use Rattle.ossl_salted.specs.File.{key_and_iv, password_of};
ghost use Rattle.ossl_salted.specs.Words.{bits_in};

use crate::job::KeySize;
use ossl_digests::Hash;
use ossl_hmac::pbkdf2;

/// The password that a file holds: its content, but for one line feed at the end.
pub fn password(content: &[u8]) -> &[u8]
    ensures { result.now ≡ password_of content.now }
{
    match content {
        [password @ .., b'\n'] => password,
        _ => content,
    }
}

/// The key and behind it the IV, in the first bytes.
pub fn key_and_iv(password: &[u8], salt: &[u8], rounds: u32, size: KeySize) -> [u8; 48]
    requires { 1 ≤ rounds }
    ensures { take (bits_in size / 8 + 16) result ≡ key_and_iv password.now salt.now rounds (bits_in size) }
{
    let mut material = [0; 48];
    pbkdf2(
        Hash::Sha256,
        password,
        salt,
        rounds,
        &mut material[..size.bytes() + 16],
    );
    material
}
