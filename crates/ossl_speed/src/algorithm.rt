use ossl_digests::Hash;
use ossl_modes::ModeKind;

/// The bits of an AES key.
#[derive(Clone, Copy)]
pub enum KeySize {
    Bits128,
    Bits192,
    Bits256,
}

/// What is timed of AES.
#[derive(Clone, Copy)]
pub enum AesWork {
    /// A mode without padding, in a direction.
    Mode { kind: ModeKind, decrypt: bool },
    /// The block function alone: as often as the message has blocks, each time on what it gave before.
    Chain { decrypt: bool },
    Cmac,
    /// Galois/Counter mode without additional data, sealed under an IV of 12 bytes.
    Gcm,
}

/// An algorithm that can be timed.
#[derive(Clone, Copy)]
pub enum Algorithm {
    Digest(Hash),
    /// HMAC under a key of 20 bytes.
    Hmac(Hash),
    /// 42 bytes by HKDF, extracted and expanded, the message being the key material.
    Hkdf(Hash),
    ChaCha20,
    /// RC4 under a key of 16 bytes.
    Rc4,
    /// AES under a key that is the message's first bytes.
    Aes(KeySize, AesWork),
}

impl Algorithm {
    /// Whether it takes only messages of whole blocks of 16 bytes.
    pub fn wants_whole_blocks(self) -> bool {
        match self {
            Algorithm::Aes(_, AesWork::Mode { kind, .. }) => {
                kind == ModeKind::Ecb || kind == ModeKind::Cbc
            }
            Algorithm::Aes(_, AesWork::Chain { .. }) => true,
            _ => false,
        }
    }
}

// A work of AES: its key's bits, and a mode or the block function alone, in a direction.
macro_rules! aes {
    ($bits:ident Chain $decrypt:literal) => {
        Algorithm::Aes(KeySize::$bits, AesWork::Chain { decrypt: $decrypt })
    };
    ($bits:ident $kind:ident $decrypt:literal) => {
        Algorithm::Aes(
            KeySize::$bits,
            AesWork::Mode {
                kind: ModeKind::$kind,
                decrypt: $decrypt,
            },
        )
    };
}

// The names, each with its algorithm: those of the built-in tables, for HMAC, HKDF and CMAC the hash or the cipher
// behind a dash, for a direction in which the text is decrypted that word behind a dash, and BLOCK for the block
// function alone.
const NAMES: [(&str, Algorithm); 71] = [
    ("SHA2-256", Algorithm::Digest(Hash::Sha256)),
    ("SHA-256", Algorithm::Digest(Hash::Sha256)),
    ("SHA256", Algorithm::Digest(Hash::Sha256)),
    ("SHA2-224", Algorithm::Digest(Hash::Sha224)),
    ("SHA-224", Algorithm::Digest(Hash::Sha224)),
    ("SHA224", Algorithm::Digest(Hash::Sha224)),
    ("SHA2-384", Algorithm::Digest(Hash::Sha384)),
    ("SHA-384", Algorithm::Digest(Hash::Sha384)),
    ("SHA384", Algorithm::Digest(Hash::Sha384)),
    ("SHA2-512", Algorithm::Digest(Hash::Sha512)),
    ("SHA-512", Algorithm::Digest(Hash::Sha512)),
    ("SHA512", Algorithm::Digest(Hash::Sha512)),
    ("SHA2-512/224", Algorithm::Digest(Hash::Sha512t224)),
    ("SHA-512/224", Algorithm::Digest(Hash::Sha512t224)),
    ("SHA512-224", Algorithm::Digest(Hash::Sha512t224)),
    ("SHA2-512/256", Algorithm::Digest(Hash::Sha512t256)),
    ("SHA-512/256", Algorithm::Digest(Hash::Sha512t256)),
    ("SHA512-256", Algorithm::Digest(Hash::Sha512t256)),
    ("SHA1", Algorithm::Digest(Hash::Sha1)),
    ("SHA-1", Algorithm::Digest(Hash::Sha1)),
    ("MD5", Algorithm::Digest(Hash::Md5)),
    ("MD4", Algorithm::Digest(Hash::Md4)),
    ("HMAC-SHA1", Algorithm::Hmac(Hash::Sha1)),
    ("HMAC-SHA256", Algorithm::Hmac(Hash::Sha256)),
    ("HMAC-SHA512", Algorithm::Hmac(Hash::Sha512)),
    ("HMAC-MD5", Algorithm::Hmac(Hash::Md5)),
    ("HKDF-SHA1", Algorithm::Hkdf(Hash::Sha1)),
    ("HKDF-SHA256", Algorithm::Hkdf(Hash::Sha256)),
    ("HKDF-SHA512", Algorithm::Hkdf(Hash::Sha512)),
    ("HKDF-MD5", Algorithm::Hkdf(Hash::Md5)),
    ("ChaCha20", Algorithm::ChaCha20),
    ("RC4", Algorithm::Rc4),
    ("AES-128-ECB", aes!(Bits128 Ecb false)),
    ("AES-128-ECB-decrypt", aes!(Bits128 Ecb true)),
    ("AES-128-CBC", aes!(Bits128 Cbc false)),
    ("AES128", aes!(Bits128 Cbc false)),
    ("AES-128-CBC-decrypt", aes!(Bits128 Cbc true)),
    ("AES-128-CFB", aes!(Bits128 Cfb false)),
    ("AES-128-CFB-decrypt", aes!(Bits128 Cfb true)),
    ("AES-128-OFB", aes!(Bits128 Ofb false)),
    ("AES-128-CTR", aes!(Bits128 Ctr false)),
    ("AES-128-BLOCK", aes!(Bits128 Chain false)),
    ("AES-128-BLOCK-decrypt", aes!(Bits128 Chain true)),
    (
        "CMAC-AES-128",
        Algorithm::Aes(KeySize::Bits128, AesWork::Cmac),
    ),
    (
        "AES-128-GCM",
        Algorithm::Aes(KeySize::Bits128, AesWork::Gcm),
    ),
    ("AES-192-ECB", aes!(Bits192 Ecb false)),
    ("AES-192-ECB-decrypt", aes!(Bits192 Ecb true)),
    ("AES-192-CBC", aes!(Bits192 Cbc false)),
    ("AES192", aes!(Bits192 Cbc false)),
    ("AES-192-CBC-decrypt", aes!(Bits192 Cbc true)),
    ("AES-192-CFB", aes!(Bits192 Cfb false)),
    ("AES-192-CFB-decrypt", aes!(Bits192 Cfb true)),
    ("AES-192-OFB", aes!(Bits192 Ofb false)),
    ("AES-192-CTR", aes!(Bits192 Ctr false)),
    ("AES-192-BLOCK", aes!(Bits192 Chain false)),
    ("AES-192-BLOCK-decrypt", aes!(Bits192 Chain true)),
    (
        "CMAC-AES-192",
        Algorithm::Aes(KeySize::Bits192, AesWork::Cmac),
    ),
    (
        "AES-192-GCM",
        Algorithm::Aes(KeySize::Bits192, AesWork::Gcm),
    ),
    ("AES-256-ECB", aes!(Bits256 Ecb false)),
    ("AES-256-ECB-decrypt", aes!(Bits256 Ecb true)),
    ("AES-256-CBC", aes!(Bits256 Cbc false)),
    ("AES256", aes!(Bits256 Cbc false)),
    ("AES-256-CBC-decrypt", aes!(Bits256 Cbc true)),
    ("AES-256-CFB", aes!(Bits256 Cfb false)),
    ("AES-256-CFB-decrypt", aes!(Bits256 Cfb true)),
    ("AES-256-OFB", aes!(Bits256 Ofb false)),
    ("AES-256-CTR", aes!(Bits256 Ctr false)),
    ("AES-256-BLOCK", aes!(Bits256 Chain false)),
    ("AES-256-BLOCK-decrypt", aes!(Bits256 Chain true)),
    (
        "CMAC-AES-256",
        Algorithm::Aes(KeySize::Bits256, AesWork::Cmac),
    ),
    (
        "AES-256-GCM",
        Algorithm::Aes(KeySize::Bits256, AesWork::Gcm),
    ),
];

/// The algorithm of a name, whose letters may be of either case.
pub fn named(word: &str) -> Option<Algorithm> {
    NAMES
        .iter()
        .find(|(name, _)| name.eq_ignore_ascii_case(word))
        .map(|(_, algorithm)| *algorithm)
}
