use ossl_codes::{AesMode, Bits, Code};

/// What a table says of a row: the names of an algorithm with `:` between them, and the algorithm.
#[derive(Clone, Copy)]
pub struct Case {
    pub names: &'static [u8],
    pub code: Code,
}

// An algorithm by the words for it.
macro_rules! code {
    (Aes $bits:ident $mode:ident) => {
        Code::Aes {
            bits: Bits::$bits,
            mode: AesMode::$mode,
        }
    };
    ($code:ident) => {
        Code::$code
    };
}

// A table of cases, a line each: the names, and the algorithm.
macro_rules! cases {
    ($($names:literal => $($code:ident)+;)*) => {
        [$(Case { names: $names, code: code!($($code)+) }),*]
    };
}

/// SHA-2 and SHA-1 (FIPS 180-4).
pub const SHA: [Case; 7] = cases! {
    b"SHA2-256:SHA-256:SHA256" => Sha256;
    b"SHA2-224:SHA-224:SHA224" => Sha224;
    b"SHA2-384:SHA-384:SHA384" => Sha384;
    b"SHA2-512:SHA-512:SHA512" => Sha512;
    b"SHA2-512/224:SHA-512/224:SHA512-224" => Sha512t224;
    b"SHA2-512/256:SHA-512/256:SHA512-256" => Sha512t256;
    b"SHA1:SHA-1" => Sha1;
};

/// MD5 (RFC 1321).
pub const MD5: [Case; 1] = cases! {
    b"MD5" => Md5;
};

/// AES in five modes (FIPS 197, SP 800-38A); a name without its mode means CBC.
pub const AES: [Case; 15] = cases! {
    b"AES-128-ECB" => Aes B128 Ecb;
    b"AES-128-CBC:AES128" => Aes B128 Cbc;
    b"AES-128-CFB" => Aes B128 Cfb;
    b"AES-128-OFB" => Aes B128 Ofb;
    b"AES-128-CTR" => Aes B128 Ctr;
    b"AES-192-ECB" => Aes B192 Ecb;
    b"AES-192-CBC:AES192" => Aes B192 Cbc;
    b"AES-192-CFB" => Aes B192 Cfb;
    b"AES-192-OFB" => Aes B192 Ofb;
    b"AES-192-CTR" => Aes B192 Ctr;
    b"AES-256-ECB" => Aes B256 Ecb;
    b"AES-256-CBC:AES256" => Aes B256 Cbc;
    b"AES-256-CFB" => Aes B256 Cfb;
    b"AES-256-OFB" => Aes B256 Ofb;
    b"AES-256-CTR" => Aes B256 Ctr;
};

/// ChaCha20 (RFC 8439).
pub const CHACHA: [Case; 1] = cases! {
    b"ChaCha20" => ChaCha20;
};

/// What runs on a digest or a cipher: HMAC, CMAC and HKDF.
pub const KEYED: [Case; 3] = cases! {
    b"HMAC" => Hmac;
    b"CMAC" => Cmac;
    b"HKDF" => Hkdf;
};

/// What only old data needs: MD4 and RC4.
pub const OUTDATED: [Case; 2] = cases! {
    b"MD4" => Md4;
    b"RC4" => Rc4;
};
