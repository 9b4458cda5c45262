ghost use Rattle.std.specs.Prelude.{◌≡◌, ◌↔◌, IsSome};
ghost use Rattle.ossl_codes.specs.Code.{operation_of, output_len_of, block_len_of};

/// What an algorithm is fetched for.
#[derive(Clone, Copy, Debug, PartialEq, Eq)]
pub enum Operation {
    Digest,
    Cipher,
    Mac,
    Kdf,
}

/// The length of an AES key.
#[derive(Clone, Copy, Debug, PartialEq, Eq)]
pub enum Bits {
    B128,
    B192,
    B256,
}

/// A mode in which AES is used (SP 800-38A).
#[derive(Clone, Copy, Debug, PartialEq, Eq)]
pub enum AesMode {
    Ecb,
    Cbc,
    Cfb,
    Ofb,
    Ctr,
}

/// An algorithm, whoever offers it and by whatever name.
#[derive(Clone, Copy, Debug, PartialEq, Eq)]
pub enum Code {
    Sha1,
    Sha224,
    Sha256,
    Sha384,
    Sha512,
    Sha512t224,
    Sha512t256,
    Md5,
    Md4,
    Aes { bits: Bits, mode: AesMode },
    ChaCha20,
    Rc4,
    Hmac,
    Cmac,
    Hkdf,
}

impl Code {
    /// The operation that the algorithm is fetched for.
    pub fn operation(self) -> Operation
        ensures operation { result ≡ operation_of self }
    {
        match self {
            Code::Sha1
            | Code::Sha224
            | Code::Sha256
            | Code::Sha384
            | Code::Sha512
            | Code::Sha512t224
            | Code::Sha512t256
            | Code::Md5
            | Code::Md4 => Operation::Digest,
            Code::Aes { .. } | Code::ChaCha20 | Code::Rc4 => Operation::Cipher,
            Code::Hmac | Code::Cmac => Operation::Mac,
            Code::Hkdf => Operation::Kdf,
        }
    }

    /// The length of a digest's output in bytes; `None` for what is no digest.
    pub fn output_len(self) -> Option<u64>
        ensures length { result ≡ output_len_of self }
        ensures digests_only { IsSome result ↔ (operation_of self ≡ Operation.Digest) }
    {
        match self {
            Code::Md5 | Code::Md4 => Some(16),
            Code::Sha1 => Some(20),
            Code::Sha224 | Code::Sha512t224 => Some(28),
            Code::Sha256 | Code::Sha512t256 => Some(32),
            Code::Sha384 => Some(48),
            Code::Sha512 => Some(64),
            Code::Aes { .. } | Code::ChaCha20 | Code::Rc4 | Code::Hmac | Code::Cmac | Code::Hkdf =>
                None,
        }
    }

    /// The length of the blocks that a digest reads, in bytes; `None` for what is no digest.
    pub fn block_len(self) -> Option<u64>
        ensures length { result ≡ block_len_of self }
        ensures digests_only { IsSome result ↔ (operation_of self ≡ Operation.Digest) }
    {
        match self {
            Code::Sha1 | Code::Sha224 | Code::Sha256 | Code::Md5 | Code::Md4 => Some(64),
            Code::Sha384 | Code::Sha512 | Code::Sha512t224 | Code::Sha512t256 => Some(128),
            Code::Aes { .. } | Code::ChaCha20 | Code::Rc4 | Code::Hmac | Code::Cmac | Code::Hkdf =>
                None,
        }
    }
}

#[cfg(test)]
mod tests {
    use super::*;

    // Output and block in bytes: FIPS 180-4, figure 1; RFC 1321, sections 1 and 3.1; RFC 1320, the same.
    #[test]
    fn digests_have_the_sizes_of_their_standards(rt: HostRuntime) {
        let sizes = [
            (Code::Sha1, 20, 64),
            (Code::Sha224, 28, 64),
            (Code::Sha256, 32, 64),
            (Code::Sha384, 48, 128),
            (Code::Sha512, 64, 128),
            (Code::Sha512t224, 28, 128),
            (Code::Sha512t256, 32, 128),
            (Code::Md5, 16, 64),
            (Code::Md4, 16, 64),
        ];
        for (code, output, block) in sizes {
            assert_eq!(rt; code.operation(), Operation::Digest);
            assert_eq!(rt; code.output_len(), Some(output));
            assert_eq!(rt; code.block_len(), Some(block));
        }
    }

    #[test]
    fn other_codes_have_no_digest_sizes(rt: HostRuntime) {
        let aes = Code::Aes {
            bits: Bits::B192,
            mode: AesMode::Cbc,
        };
        let others = [
            (aes, Operation::Cipher),
            (Code::ChaCha20, Operation::Cipher),
            (Code::Rc4, Operation::Cipher),
            (Code::Hmac, Operation::Mac),
            (Code::Cmac, Operation::Mac),
            (Code::Hkdf, Operation::Kdf),
        ];
        for (code, operation) in others {
            assert_eq!(rt; code.operation(), operation);
            assert_eq!(rt; code.output_len(), None);
            assert_eq!(rt; code.block_len(), None);
        }
    }
}
