/// A provider that comes with the library.
#[derive(Clone, Copy, Debug, PartialEq, Eq)]
pub enum Builtin {
    /// The algorithms in general use, 27 rows (OSSL_PROVIDER-default(7)).
    Default,
    /// MD4 and RC4, which are here for old data alone (OSSL_PROVIDER-legacy(7)).
    Legacy,
    /// The rows of `Default` but MD5 and ChaCha20, with keys of at least 14 bytes for HMAC and HKDF
    /// (OSSL_PROVIDER-FIPS(7)). No validation is claimed.
    Fips,
    /// No rows: loaded, it keeps the fallback away (OSSL_PROVIDER-null(7)).
    Null,
    /// No rows here: what the real one offers is no part of this library (OSSL_PROVIDER-base(7)).
    Base,
}
