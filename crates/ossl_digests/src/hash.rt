ghost use Rattle.std.specs.Prelude.{◌≡◌};
ghost use Rattle.ossl_digests.specs.Digest.{block_len, output_len};

/// A hash function.
#[derive(Clone, Copy, Debug, PartialEq, Eq)]
pub enum Hash {
    /// SHA-1 (FIPS 180-4, 6.1).
    Sha1,
    /// SHA-224 (FIPS 180-4, 6.3).
    Sha224,
    /// SHA-256 (FIPS 180-4, 6.2).
    Sha256,
    /// SHA-384 (FIPS 180-4, 6.5).
    Sha384,
    /// SHA-512 (FIPS 180-4, 6.4).
    Sha512,
    /// SHA-512/224 (FIPS 180-4, 6.6).
    Sha512t224,
    /// SHA-512/256 (FIPS 180-4, 6.7).
    Sha512t256,
    /// MD5 (RFC 1321).
    Md5,
    /// MD4 (RFC 1320).
    Md4,
}

impl Hash {
    /// The length of a digest in bytes.
    pub fn output_len(self) -> usize
        ensures { result ≡ output_len self }
    {
        match self {
            Hash::Md5 | Hash::Md4 => 16,
            Hash::Sha1 => 20,
            Hash::Sha224 | Hash::Sha512t224 => 28,
            Hash::Sha256 | Hash::Sha512t256 => 32,
            Hash::Sha384 => 48,
            Hash::Sha512 => 64,
        }
    }

    /// The length of a block in bytes, by which HMAC fills its keys.
    pub fn block_len(self) -> usize
        ensures { result ≡ block_len self }
    {
        match self {
            Hash::Sha384 | Hash::Sha512 | Hash::Sha512t224 | Hash::Sha512t256 => 128,
            Hash::Sha1 | Hash::Sha224 | Hash::Sha256 | Hash::Md5 | Hash::Md4 => 64,
        }
    }
}
