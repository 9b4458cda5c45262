ghost use Rattle.std.specs.Prelude.{◌≡◌};
ghost use Rattle.ossl_chacha.specs.Generator.{GivesKeyStream, generator_at};

use rand_chacha::ChaCha20Rng;
use rand_core::SeedableRng;
use rand_core::utils::read_u32;

/// The generator whose words, in little-endian order, are the key stream of a key and an IV (RFC 8439, 2.3 and 2.4).
/// Its 64-bit counter is the IV's first two words, and its stream the last two. Past block 2^32 - 1 it would carry into
/// the nonce, where the key stream ends.
pub fn generator_of(key: [u8; 32], iv: [u8; 16]) -> ChaCha20Rng
    ensures place { result ≡ generator_at key iv 0 }
    ensures words { GivesKeyStream key iv result }
{
    let counter = u64::from(read_u32(&iv, 0)) + (u64::from(read_u32(&iv, 1)) << 32);
    let stream = u64::from(read_u32(&iv, 2)) + (u64::from(read_u32(&iv, 3)) << 32);
    let mut generator = ChaCha20Rng::from_seed(key);
    generator.set_stream(stream);
    generator.set_word_pos(u128::from(counter) * 16);
    generator
}
