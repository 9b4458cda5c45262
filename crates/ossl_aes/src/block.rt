//! Blocks of 16 bytes, and what a cipher of them is.

ghost use Rattle.std.specs.Prelude.{◌≡◌, ℕ, List};

/// A cipher of blocks of 16 bytes, with its key.
pub trait Block: Drop {
    /// What a block is encrypted to.
    ghost enc: { Self → List ℕ → List ℕ };

    /// What a block is decrypted to.
    ghost dec: { Self → List ℕ → List ℕ };

    /// The encrypted block.
    fn encrypt(&self, block: [u8; 16]) -> [u8; 16]
        ensures { result ≡ enc self.now block };

    /// The decrypted block.
    fn decrypt(&self, block: [u8; 16]) -> [u8; 16]
        ensures { result ≡ dec self.now block };
}
