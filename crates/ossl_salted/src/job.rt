//! What the words ask for.

ghost use Rattle.std.specs.Prelude.{◌≤◌};

/// The size of an AES key.
#[derive(Clone, Copy)]
pub enum KeySize {
    Bits128,
    Bits192,
    Bits256,
}

/// What the words ask for.
#[derive(Drop)]
pub struct Job<'a> {
    /// The salt of the file that is to be written; none where a file is to be decrypted.
    pub salt: Option<[u8; 8]>,
    /// The name of the password's file.
    pub name: &'a [u8],
    pub size: KeySize,
    /// The rounds of PBKDF2.
    pub rounds: u32,
    ghost some: { 1 ≤ rounds },
}

impl KeySize {
    ghost use Rattle.std.specs.Prelude.{◌≡◌, ◌/◌};
    ghost use Rattle.ossl_salted.specs.Words.{bits_in};

    /// The bytes of a key.
    pub fn bytes(self) -> usize
        ensures { result ≡ bits_in self / 8 }
    {
        match self {
            KeySize::Bits128 => 16,
            KeySize::Bits192 => 24,
            KeySize::Bits256 => 32,
        }
    }
}
