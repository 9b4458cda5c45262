//! The modes block by block, each in one direction (SP 800-38A, 6.1 to 6.5).

ghost use Rattle.std.specs.Prelude.{◌≡◌, List, ℕ, length};
ghost use Rattle.std.specs.Int.{w128, to_be_bytes};
ghost use Rattle.ossl_aes.specs.Cipher.{add};
ghost use Rattle.ossl_modes.specs.Modes.{next_counter};

use ossl_aes::{Block, number_block, xor_blocks};

/// A mode in one direction. Each is a type, so that a loop over blocks can be made for each.
pub trait Step {
    // What a block becomes, by the cipher's encryption and decryption and by what stands for the IV.
    ghost out: { (List ℕ → List ℕ) → (List ℕ → List ℕ) → List ℕ → List ℕ → List ℕ };

    // What stands for the IV at the block after it, by the cipher's encryption.
    ghost next: { (List ℕ → List ℕ) → List ℕ → List ℕ → List ℕ };

    /// A block through the mode; `value` is the IV or what stands for it by now.
    fn step<C: Block>(cipher: &C, value: &mut [u8; 16], block: [u8; 16]) -> [u8; 16]
        ensures gives { result ≡ out (C.enc cipher.now) (C.dec cipher.now) value.old block }
        ensures next { value.new ≡ next (C.enc cipher.now) value.old block };

    /// A block through the mode, where it stands.
    #[inline(always)]
    fn step_in_place<C: Block>(cipher: &C, value: &mut [u8; 16], place: &mut [u8])
        requires { length place.old ≡ 16 }
        ensures gives { place.new ≡ out (C.enc cipher.now) (C.dec cipher.now) value.old place.old }
        ensures next { value.new ≡ next (C.enc cipher.now) value.old place.old }
    {
        let mut block = [0; 16];
        block.copy_from_slice(place);
        let text = Self::step(cipher, value, block);
        place.copy_from_slice(&text);
    }
}

// The counter after a counter.
#[inline(always)]
fn next_counter(v: [u8; 16]) -> [u8; 16]
    ensures { result ≡ next_counter v }
{
    number_block(u128::from_be_bytes(v).wrapping_add(1))
}

/// Electronic Codebook.
pub struct EcbEncryption;

impl Step for EcbEncryption {
    ghost out = { λ e d v b. e b };

    ghost next = { λ e v b. v };

    #[inline(always)]
    fn step<C: Block>(cipher: &C, _value: &mut [u8; 16], block: [u8; 16]) -> [u8; 16] {
        cipher.encrypt(block)
    }
}

pub struct EcbDecryption;

impl Step for EcbDecryption {
    ghost out = { λ e d v b. d b };

    ghost next = { λ e v b. v };

    #[inline(always)]
    fn step<C: Block>(cipher: &C, _value: &mut [u8; 16], block: [u8; 16]) -> [u8; 16] {
        cipher.decrypt(block)
    }
}

/// Cipher Block Chaining.
pub struct CbcEncryption;

impl Step for CbcEncryption {
    ghost out = { λ e d v b. e (add b v) };

    ghost next = { λ e v b. e (add b v) };

    #[inline(always)]
    fn step<C: Block>(cipher: &C, value: &mut [u8; 16], block: [u8; 16]) -> [u8; 16] {
        let text = cipher.encrypt(xor_blocks(block, *value));
        *value = text;
        text
    }
}

pub struct CbcDecryption;

impl Step for CbcDecryption {
    ghost out = { λ e d v b. add (d b) v };

    ghost next = { λ e v b. b };

    #[inline(always)]
    fn step<C: Block>(cipher: &C, value: &mut [u8; 16], block: [u8; 16]) -> [u8; 16] {
        let text = xor_blocks(cipher.decrypt(block), *value);
        *value = block;
        text
    }

    // The ciphertext is read once more where it stands, in place of being kept beside the cipher's work.
    #[inline(always)]
    fn step_in_place<C: Block>(cipher: &C, value: &mut [u8; 16], place: &mut [u8]) {
        let mut block = [0; 16];
        block.copy_from_slice(place);
        let text = xor_blocks(cipher.decrypt(block), *value);
        value.copy_from_slice(place);
        place.copy_from_slice(&text);
    }
}

/// Cipher Feedback of whole blocks.
pub struct CfbEncryption;

impl Step for CfbEncryption {
    ghost out = { λ e d v b. add b (e v) };

    ghost next = { λ e v b. add b (e v) };

    #[inline(always)]
    fn step<C: Block>(cipher: &C, value: &mut [u8; 16], block: [u8; 16]) -> [u8; 16] {
        let text = xor_blocks(block, cipher.encrypt(*value));
        *value = text;
        text
    }
}

pub struct CfbDecryption;

impl Step for CfbDecryption {
    ghost out = { λ e d v b. add b (e v) };

    ghost next = { λ e v b. b };

    #[inline(always)]
    fn step<C: Block>(cipher: &C, value: &mut [u8; 16], block: [u8; 16]) -> [u8; 16] {
        let plain = xor_blocks(block, cipher.encrypt(*value));
        *value = block;
        plain
    }
}

/// Output Feedback, which is the same in both directions.
pub struct Ofb;

impl Step for Ofb {
    ghost out = { λ e d v b. add b (e v) };

    ghost next = { λ e v b. e v };

    #[inline(always)]
    fn step<C: Block>(cipher: &C, value: &mut [u8; 16], block: [u8; 16]) -> [u8; 16] {
        let stream = cipher.encrypt(*value);
        *value = stream;
        xor_blocks(block, stream)
    }
}

/// Counter, which is the same in both directions.
pub struct Ctr;

impl Step for Ctr {
    ghost out = { λ e d v b. add b (e v) };

    ghost next = { λ e v b. next_counter v };

    #[inline(always)]
    fn step<C: Block>(cipher: &C, value: &mut [u8; 16], block: [u8; 16]) -> [u8; 16] {
        // The next counter is stored before the cipher's work, so that it is in memory when the next block asks for it.
        let counter = *value;
        *value = next_counter(counter);
        xor_blocks(block, cipher.encrypt(counter))
    }
}
