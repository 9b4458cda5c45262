//! Keys out of passwords.

ghost use Rattle.std.specs.Prelude.{◌≡◌, ◌<◌, ◌≤◌, ◌^◌, ℕ, List, [], ◌++◌, length, take, drop};
ghost use Rattle.ossl_digests.specs.declared.hash.Hash.{Hash as TheHash};
ghost use Rattle.ossl_digests.specs.Digest.{output_len};
ghost use Rattle.ossl_hmac.specs.Holds.{Holds};
ghost use Rattle.ossl_hmac.specs.Pbkdf2.{xored, derived_block, pbkdf2};

use crate::hmac::Hmac;
use ossl_digests::Hash;

/// The longest digest in bytes.
const LONGEST_DIGEST: usize = 64;

/// Fills `out` with a key out of a password and a salt: PBKDF2 with HMAC (RFC 8018, 5.2). The work grows with
/// `rounds` times the length of `out`, by two steps of the hash a round and digest. It takes no memory.
pub fn pbkdf2(hash: Hash, password: &[u8], salt: &[u8], rounds: u32, out: &mut [u8])
    requires rounds { 1 ≤ rounds }
    requires len { length out.old < 2 ^ 32 }
    ensures { out.new ≡ pbkdf2 hash password.now salt.now rounds (length out.old) }
{
    let keyed = Hmac::new(hash, password);
    let size = hash.output_len();
    for i in 0..out.len().div_ceil(size) {
        let block = derived_block(&keyed, salt, rounds, i as u32 + 1);
        let start = i * size;
        let end = out.len().min(start + size);
        out[start..end].copy_from_slice(&block[..end - start]);
    }
}

// The block T_number: the first bytes of the array, as many as a digest has.
fn derived_block(keyed: &Hmac, salt: &[u8], rounds: u32, number: u32) -> [u8; 64]
    requires { 1 ≤ rounds }
    ensures { (hash : TheHash) (password : List ℕ) → Holds keyed.now hash password [] →
        take (output_len hash) result ≡ derived_block hash password salt.now rounds number }
{
    let mut code = {
        let mut mac = keyed.copy();
        mac.feed(salt);
        mac.feed(&number.to_be_bytes());
        mac.finish()
    };
    let mut sum = [0; LONGEST_DIGEST];
    xor(&mut sum, code.as_slice());
    'rounds: for _ in 1..rounds {
        code = keyed.code_of(code.as_slice());
        xor(&mut sum, code.as_slice());
    }
    sum
}

// Xors a code into the first bytes of a sum.
fn xor(sum: &mut [u8], code: &[u8])
    ensures { sum.new ≡ xored sum.old code.now }
{
    for i in 0..sum.len().min(code.len()) {
        sum[i] ^= code[i];
    }
}
