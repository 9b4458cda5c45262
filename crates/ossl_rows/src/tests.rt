ghost use Rattle.std.specs.Prelude.{◌≡◌, [], IfOk};
ghost use Rattle.ossl_provider.specs.Table.{table_sheet};

use crate::{Builtin, builtin};
use ossl_codes::{AesMode, Bits, Code};
use ossl_provider::{Provider, TableProvider};
use std::alloc::{AllocError, Global};
use std::process::Abort;
use std::test::Fail;

macro_rules! aes {
    ($bits:ident $mode:ident) => {
        Code::Aes {
            bits: Bits::$bits,
            mode: AesMode::$mode,
        }
    };
}

// Each row of `default` in turn: where `fips` has it, its names and its code.
const TABLE: [(Option<usize>, &[u8], Code); 27] = [
    (Some(0), b"SHA2-256:SHA-256:SHA256", Code::Sha256),
    (Some(1), b"SHA2-224:SHA-224:SHA224", Code::Sha224),
    (Some(2), b"SHA2-384:SHA-384:SHA384", Code::Sha384),
    (Some(3), b"SHA2-512:SHA-512:SHA512", Code::Sha512),
    (
        Some(4),
        b"SHA2-512/224:SHA-512/224:SHA512-224",
        Code::Sha512t224,
    ),
    (
        Some(5),
        b"SHA2-512/256:SHA-512/256:SHA512-256",
        Code::Sha512t256,
    ),
    (Some(6), b"SHA1:SHA-1", Code::Sha1),
    (None, b"MD5", Code::Md5),
    (Some(7), b"AES-128-ECB", aes!(B128 Ecb)),
    (Some(8), b"AES-128-CBC:AES128", aes!(B128 Cbc)),
    (Some(9), b"AES-128-CFB", aes!(B128 Cfb)),
    (Some(10), b"AES-128-OFB", aes!(B128 Ofb)),
    (Some(11), b"AES-128-CTR", aes!(B128 Ctr)),
    (Some(12), b"AES-192-ECB", aes!(B192 Ecb)),
    (Some(13), b"AES-192-CBC:AES192", aes!(B192 Cbc)),
    (Some(14), b"AES-192-CFB", aes!(B192 Cfb)),
    (Some(15), b"AES-192-OFB", aes!(B192 Ofb)),
    (Some(16), b"AES-192-CTR", aes!(B192 Ctr)),
    (Some(17), b"AES-256-ECB", aes!(B256 Ecb)),
    (Some(18), b"AES-256-CBC:AES256", aes!(B256 Cbc)),
    (Some(19), b"AES-256-CFB", aes!(B256 Cfb)),
    (Some(20), b"AES-256-OFB", aes!(B256 Ofb)),
    (Some(21), b"AES-256-CTR", aes!(B256 Ctr)),
    (None, b"ChaCha20", Code::ChaCha20),
    (Some(22), b"HMAC", Code::Hmac),
    (Some(23), b"CMAC", Code::Cmac),
    (Some(24), b"HKDF", Code::Hkdf),
];

/// A built-in provider of which the proofs know that nothing is up.
fn idle(alloc: Global, kind: Builtin) -> Result<TableProvider, AllocError>
    ensures { IfOk result
        (λ provider. table_sheet provider ≡ record { up = []; starts = 0; faults = 0 }) }
{
    builtin(alloc, kind)
}

fn assert_row(
    rt: &impl Abort,
    provider: &TableProvider,
    row: usize,
    names: &[u8],
    definition: &[u8],
    code: Code,
) {
    assert!(rt; row < provider.row_count());
    assert_eq!(rt; provider.row_names(row), names);
    assert_eq!(rt; provider.row_definition(row), definition);
    assert_eq!(rt; provider.row_code(row), code);
}

#[test]
fn default_and_fips_have_their_tables(rt: HostRuntime) -> Result<(), Fail> {
    let default = idle(rt.alloc(), Builtin::Default)?;
    let fips = idle(rt.alloc(), Builtin::Fips)?;
    assert_eq!(rt; default.name(), b"default".as_slice());
    assert_eq!(rt; fips.name(), b"fips".as_slice());
    assert_eq!(rt; default.row_count(), 27);
    assert_eq!(rt; fips.row_count(), 25);
    for (row, (in_fips, names, code)) in TABLE.into_iter().enumerate() {
        assert_row(&rt, &default, row, names, b"provider=default", code);
        if let Some(row) = in_fips {
            assert_row(&rt, &fips, row, names, b"provider=fips,fips=yes", code);
        }
    }
    Ok(())
}

#[test]
fn legacy_has_md4_and_rc4_and_the_others_nothing(rt: HostRuntime) -> Result<(), Fail> {
    let legacy = idle(rt.alloc(), Builtin::Legacy)?;
    assert_eq!(rt; legacy.name(), b"legacy".as_slice());
    assert_eq!(rt; legacy.row_count(), 2);
    assert_row(&rt, &legacy, 0, b"MD4", b"provider=legacy", Code::Md4);
    assert_row(&rt, &legacy, 1, b"RC4", b"provider=legacy", Code::Rc4);
    let empty: [(Builtin, &[u8]); 2] = [(Builtin::Null, b"null"), (Builtin::Base, b"base")];
    for (kind, name) in empty {
        let provider = idle(rt.alloc(), kind)?;
        assert_eq!(rt; provider.name(), name);
        assert_eq!(rt; provider.row_count(), 0);
    }
    Ok(())
}

// HMAC and HKDF from `least_key` bytes on, CMAC and a digest with any key.
fn assert_least_key(rt: &impl Abort, provider: &TableProvider, least_key: u64) {
    for key_len in [0, 13, 14, 1000] {
        let admitted = key_len >= least_key;
        assert_eq!(rt; provider.admits(Code::Hmac, key_len), admitted);
        assert_eq!(rt; provider.admits(Code::Hkdf, key_len), admitted);
        assert!(rt; provider.admits(Code::Cmac, key_len));
        assert!(rt; provider.admits(Code::Sha256, key_len));
    }
}

#[test]
fn fips_alone_refuses_short_keys(rt: HostRuntime) -> Result<(), Fail> {
    assert_least_key(&rt, &idle(rt.alloc(), Builtin::Default)?, 0);
    assert_least_key(&rt, &idle(rt.alloc(), Builtin::Legacy)?, 0);
    assert_least_key(&rt, &idle(rt.alloc(), Builtin::Fips)?, 14);
    assert_least_key(&rt, &idle(rt.alloc(), Builtin::Null)?, 0);
    assert_least_key(&rt, &idle(rt.alloc(), Builtin::Base)?, 0);
    Ok(())
}

#[test]
fn each_starts_and_stops(rt: HostRuntime) -> Result<(), Fail> {
    for kind in [
        Builtin::Default,
        Builtin::Legacy,
        Builtin::Fips,
        Builtin::Null,
        Builtin::Base,
    ] {
        let mut provider = idle(rt.alloc(), kind)?;
        provider.start(1)?;
        provider.stop(1);
        assert_eq!(rt; provider.faults(), 0);
    }
    Ok(())
}
