//! Decryption undoes encryption.

ghost use Rattle.std.specs.Prelude.{◌≡◌, ℕ, List, length};
ghost use Rattle.ossl_aes.specs.Cipher.{encrypted, decrypted};
ghost use Rattle.ossl_aes.specs.Inverse.{IsUndoneBy};

use crate::aes::Aes;
use crate::block::Block;

/// A block encrypted and decrypted again, which is the block (FIPS 197, 5.3). The law says it of the definitions: under
/// every key of 4, 6 or 8 words, and of every block.
pub fn there_and_back<const NK: usize, const WORDS: usize>(
    cipher: &Aes<NK, WORDS>,
    block: &[u8],
) -> [u8; 16]
    requires { length block.now ≡ 16 }
    ensures back { result ≡ block.now }
    ensures law { (nk : ℕ) (key : List ℕ) → IsUndoneBy (encrypted nk key) (decrypted nk key) }
{
    let mut state = [0; 16];
    state.copy_from_slice(block);
    cipher.decrypt(cipher.encrypt(state))
}
