// A published example of each algorithm, and texts of many lengths cut at each place.

use ossl_base::Bytes;
use ossl_codes::{AesMode, Bits, Code, Direction, KdfMode};
use ossl_op::{FinishRefused, Params};
use ossl_op_run::{RunRefused, run};
use std::alloc::{AllocError, Global};
use std::process::Abort;
use std::test::Fail;

// FIPS 180-4 (its example of one block), RFC 1321 and RFC 1320 (appendices A.5): the digest of "abc".
const DIGESTS: [(Code, &str); 9] = [
    (Code::Sha1, "a9993e364706816aba3e25717850c26c9cd0d89d"),
    (
        Code::Sha224,
        "23097d223405d8228642a477bda255b32aadbce4bda0b3f7e36c9da7",
    ),
    (
        Code::Sha256,
        "ba7816bf8f01cfea414140de5dae2223b00361a396177a9cb410ff61f20015ad",
    ),
    (
        Code::Sha384,
        "cb00753f45a35e8bb5a03d699ac65007272c32ab0eded1631a8b605a43ff5bed8086072ba1e7cc2358baeca134c825a7",
    ),
    (
        Code::Sha512,
        "ddaf35a193617abacc417349ae20413112e6fa4e89a97ea20a9eeee64b55d39a\
         2192992a274fc1a836ba3c23a3feebbd454d4423643ce80e2a9ac94fa54ca49f",
    ),
    (
        Code::Sha512t224,
        "4634270f707b6a54daae7530460842e20e37ed265ceee9a43e8924aa",
    ),
    (
        Code::Sha512t256,
        "53048e2681941ef99b2e29b76b4c7dabe4c2d0c634fc6d46e0e2f13107e7af23",
    ),
    (Code::Md5, "900150983cd24fb0d6963f7d28e17f72"),
    (Code::Md4, "a448017aaf21d8525fc10ae87aa6729d"),
];

// SP 800-38A, F.1 to F.5, and SP 800-38B, D.1 to D.3: the keys, and what the first block becomes by CMAC and in ECB,
// CBC, CFB, OFB and CTR.
const BLOCK: &str = "6bc1bee22e409f96e93d7e117393172a";

const CIPHERS: [(Bits, &str, [&str; 6]); 3] = [
    (
        Bits::B128,
        "2b7e151628aed2a6abf7158809cf4f3c",
        [
            "070a16b46b4d4144f79bdd9dd04a287c",
            "3ad77bb40d7a3660a89ecaf32466ef97",
            "7649abac8119b246cee98e9b12e9197d",
            "3b3fd92eb72dad20333449f8e83cfb4a",
            "3b3fd92eb72dad20333449f8e83cfb4a",
            "874d6191b620e3261bef6864990db6ce",
        ],
    ),
    (
        Bits::B192,
        "8e73b0f7da0e6452c810f32b809079e562f8ead2522c6b7b",
        [
            "9e99a7bf31e710900662f65e617c5184",
            "bd334f1d6e45f25ff712a214571fa5cc",
            "4f021db243bc633d7178183a9fa071e8",
            "cdc80d6fddf18cab34c25909c99a4174",
            "cdc80d6fddf18cab34c25909c99a4174",
            "1abc932417521ca24f2b0459fe7e6e0b",
        ],
    ),
    (
        Bits::B256,
        "603deb1015ca71be2b73aef0857d77811f352c073b6108d72d9810a30914dff4",
        [
            "28a7023f452e8f82bd4bf28d8c37c35c",
            "f3eed1bdb5d2a03c064b5a7e3db181f8",
            "f58c4c04d6e5f1ba779eabfb5f7bfbd6",
            "dc7e84bfda79164b7ecd8486985d3860",
            "dc7e84bfda79164b7ecd8486985d3860",
            "601ec313775789a5b7a7f504bbf3d228",
        ],
    ),
];

const MODES: [(AesMode, &str); 5] = [
    (AesMode::Ecb, ""),
    (AesMode::Cbc, "000102030405060708090a0b0c0d0e0f"),
    (AesMode::Cfb, "000102030405060708090a0b0c0d0e0f"),
    (AesMode::Ofb, "000102030405060708090a0b0c0d0e0f"),
    (AesMode::Ctr, "f0f1f2f3f4f5f6f7f8f9fafbfcfdfeff"),
];

// RFC 8439, 2.4.2: the counter 1 and the nonce, and the text.
const NONCE: &str = "01000000000000000000004a00000000";

const COUNTED: &str = "000102030405060708090a0b0c0d0e0f101112131415161718191a1b1c1d1e1f";

const SUNSCREEN: &str = "4c616469657320616e642047656e746c656d656e206f662074686520636c61737320";

const SUNSCREEN_SEALED: &str =
    "6e2e359a2568f98041ba0728dd0d6981e97e7aec1d4360c20a27afccfd9fae0bf91b";

// The parameters of a key and an IV, with everything else as it is by default.
fn params(alloc: Global, key: &[u8], iv: &[u8]) -> Result<Params, AllocError> {
    Ok(Params {
        direction: Direction::Encrypt,
        pad: true,
        key: Some(Bytes::of(Vec::from_slice(alloc, key)?)),
        iv: Some(Bytes::of(Vec::from_slice(alloc, iv)?)),
        salt: None,
        info: None,
        mode: KdfMode::Both,
        len: Some(42),
    })
}

// The whole text gives the bytes with these hexadecimal digits.
fn gives<R: Abort>(
    alloc: Global,
    rt: &R,
    code: Code,
    inner: Option<Code>,
    params: &Params,
    text: &[u8],
    digits: &str,
) -> Result<(), Fail> {
    let mut out = Vec::new(alloc);
    run(alloc, code, inner, params, &[text], &mut out)?;
    let given = hex::encode(alloc, out.as_slice())?;
    assert_eq!(rt; given.as_str(), digits, "{code:?}");
    Ok(())
}

#[test]
fn published_digests(rt: HostRuntime) -> Result<(), Fail> {
    let alloc = rt.alloc();
    let params = params(alloc, b"", b"")?;
    for (code, digits) in DIGESTS {
        gives(alloc, &rt, code, None, &params, b"abc", digits)?;
    }
    Ok(())
}

// The first block's CMAC, and the block in each mode, there and back.
fn published_blocks<R: Abort>(
    alloc: Global,
    rt: &R,
    bits: Bits,
    key: &[u8],
    blocks: &[&str; 6],
) -> Result<(), Fail> {
    let block = hex::decode(alloc, BLOCK)?;
    let inner = Some(Code::Aes {
        bits,
        mode: AesMode::Cbc,
    });
    let alone = params(alloc, key, b"")?;
    gives(
        alloc,
        rt,
        Code::Cmac,
        inner,
        &alone,
        block.as_slice(),
        blocks[0],
    )?;
    for i in 0..5usize {
        let (mode, iv) = MODES[i];
        let iv = hex::decode(alloc, iv)?;
        published_block(
            alloc,
            rt,
            Code::Aes { bits, mode },
            key,
            iv.as_slice(),
            blocks[i + 1],
        )?;
    }
    Ok(())
}

fn published_block<R: Abort>(
    alloc: Global,
    rt: &R,
    code: Code,
    key: &[u8],
    iv: &[u8],
    digits: &str,
) -> Result<(), Fail> {
    let mut params = params(alloc, key, iv)?;
    params.pad = false;
    let block = hex::decode(alloc, BLOCK)?;
    gives(alloc, rt, code, None, &params, block.as_slice(), digits)?;
    params.direction = Direction::Decrypt;
    let image = hex::decode(alloc, digits)?;
    gives(alloc, rt, code, None, &params, image.as_slice(), BLOCK)
}

#[test]
fn published_blocks_of_aes(rt: HostRuntime) -> Result<(), Fail> {
    let alloc = rt.alloc();
    for (bits, key, blocks) in &CIPHERS {
        let key = hex::decode(alloc, key)?;
        published_blocks(alloc, &rt, *bits, key.as_slice(), blocks)?;
    }
    Ok(())
}

// RFC 8439, 2.4.2.
#[test]
fn published_chacha20(rt: HostRuntime) -> Result<(), Fail> {
    let alloc = rt.alloc();
    let key = hex::decode(alloc, COUNTED)?;
    let iv = hex::decode(alloc, NONCE)?;
    let params = params(alloc, key.as_slice(), iv.as_slice())?;
    let text = hex::decode(alloc, SUNSCREEN)?;
    gives(
        alloc,
        &rt,
        Code::ChaCha20,
        None,
        &params,
        text.as_slice(),
        SUNSCREEN_SEALED,
    )
}

#[test]
fn published_rc4(rt: HostRuntime) -> Result<(), Fail> {
    let alloc = rt.alloc();
    let params = params(alloc, b"Key", b"")?;
    gives(
        alloc,
        &rt,
        Code::Rc4,
        None,
        &params,
        b"Plaintext",
        "bbf316e8d940af0ad3",
    )
}

// RFC 4231, 4.3.
#[test]
fn published_hmac(rt: HostRuntime) -> Result<(), Fail> {
    let alloc = rt.alloc();
    let params = params(alloc, b"Jefe", b"")?;
    let text = b"what do ya want for nothing?";
    gives(
        alloc,
        &rt,
        Code::Hmac,
        Some(Code::Sha256),
        &params,
        text,
        "5bdcc146bf60754e6a042426089575c75a003f089d2739839dec58b964ec3843",
    )
}

// RFC 5869, A.1.
#[test]
fn published_hkdf(rt: HostRuntime) -> Result<(), Fail> {
    let alloc = rt.alloc();
    let mut params = params(alloc, &[0x0b; 22], b"")?;
    params.salt = Some(Bytes::of(hex::decode(alloc, "000102030405060708090a0b0c")?));
    params.info = Some(Bytes::of(hex::decode(alloc, "f0f1f2f3f4f5f6f7f8f9")?));
    gives(
        alloc,
        &rt,
        Code::Hkdf,
        Some(Code::Sha256),
        &params,
        b"passed over",
        "3cb25f25faacd57a90434f64d0362f2a2d2d0a90cf1a5a4c5db02d56ecc4c5bf34007208d5b887185865",
    )
}

// A text of up to 70 bytes whose bytes count up.
const LONGEST: usize = 70;

// The pieces end as the whole text did, and give the same, also where the end is refused.
fn cut_is_whole<R: Abort>(
    alloc: Global,
    rt: &R,
    code: Code,
    inner: Option<Code>,
    params: &Params,
    pieces: &[&[u8]],
    whole: &[u8],
    wanted: Result<(), RunRefused>,
) -> Result<(), Fail> {
    let mut cut = Vec::with_capacity(alloc, 256)?;
    let ended = run(alloc, code, inner, params, pieces, &mut cut);
    assert_eq!(rt; ended, wanted, "{code:?}");
    assert_eq!(rt; cut.as_slice(), whole, "{code:?}");
    Ok(())
}

// Texts of 0 to 70 bytes, whole, and cut at each place into two and at each two places into three pieces.
fn cut_everywhere<R: Abort>(
    alloc: Global,
    rt: &R,
    code: Code,
    inner: Option<Code>,
    params: &Params,
) -> Result<(), Fail> {
    let mut text = [0u8; LONGEST];
    for i in 0..LONGEST {
        text[i] = i as u8;
    }
    for n in 0..=LONGEST {
        let bytes = &text[..n];
        let mut whole = Vec::with_capacity(alloc, 256)?;
        let wanted = run(alloc, code, inner, params, &[bytes], &mut whole);
        let given = whole.as_slice();
        for end in 0..=n {
            let two = [&bytes[..end], &bytes[end..]];
            cut_is_whole(alloc, rt, code, inner, params, &two, given, wanted)?;
            for start in 0..=end {
                let three = [&bytes[..start], &bytes[start..end], &bytes[end..]];
                cut_is_whole(alloc, rt, code, inner, params, &three, given, wanted)?;
            }
        }
    }
    Ok(())
}

// The algorithms beside AES's modes, each with the length of its key.
const OTHERS: [(Code, Option<Code>, usize); 8] = [
    (Code::ChaCha20, None, 32),
    (Code::Rc4, None, 16),
    (Code::Hmac, Some(Code::Md5), 16),
    (Code::Hmac, Some(Code::Sha512), 16),
    (
        Code::Cmac,
        Some(Code::Aes {
            bits: Bits::B128,
            mode: AesMode::Cbc,
        }),
        16,
    ),
    (
        Code::Cmac,
        Some(Code::Aes {
            bits: Bits::B192,
            mode: AesMode::Cbc,
        }),
        24,
    ),
    (
        Code::Cmac,
        Some(Code::Aes {
            bits: Bits::B256,
            mode: AesMode::Cbc,
        }),
        32,
    ),
    (Code::Hkdf, Some(Code::Sha1), 16),
];

#[test]
fn cuts_of_digests_change_nothing(rt: HostRuntime) -> Result<(), Fail> {
    let alloc = rt.alloc();
    let params = params(alloc, b"", b"")?;
    for (code, _) in DIGESTS {
        cut_everywhere(alloc, &rt, code, None, &params)?;
    }
    Ok(())
}

#[test]
fn cuts_of_keyed_texts_change_nothing(rt: HostRuntime) -> Result<(), Fail> {
    let alloc = rt.alloc();
    for (code, inner, len) in OTHERS {
        let mut params = params(alloc, &KEY[..len.min(32)], &[5; 16])?;
        cut_everywhere(alloc, &rt, code, inner, &params)?;
        if inner.is_none() {
            params.direction = Direction::Decrypt;
            cut_everywhere(alloc, &rt, code, inner, &params)?;
        }
    }
    Ok(())
}

const KEY: [u8; 32] = [7; 32];

// Each mode under a key, in both directions, ECB and CBC with padding and without.
fn cut_modes<R: Abort>(alloc: Global, rt: &R, bits: Bits, key: &[u8]) -> Result<(), Fail> {
    for (mode, _) in MODES {
        let code = Code::Aes { bits, mode };
        for direction in [Direction::Encrypt, Direction::Decrypt] {
            let mut params = params(alloc, key, &[5; 16])?;
            params.direction = direction;
            cut_everywhere(alloc, rt, code, None, &params)?;
            if matches!(mode, AesMode::Ecb | AesMode::Cbc) {
                params.pad = false;
                cut_everywhere(alloc, rt, code, None, &params)?;
            }
        }
    }
    Ok(())
}

#[test]
fn cuts_under_128_bits_change_nothing(rt: HostRuntime) -> Result<(), Fail> {
    cut_modes(rt.alloc(), &rt, Bits::B128, &KEY[..16])
}

#[test]
fn cuts_under_192_bits_change_nothing(rt: HostRuntime) -> Result<(), Fail> {
    cut_modes(rt.alloc(), &rt, Bits::B192, &KEY[..24])
}

#[test]
fn cuts_under_256_bits_change_nothing(rt: HostRuntime) -> Result<(), Fail> {
    cut_modes(rt.alloc(), &rt, Bits::B256, &KEY)
}

// A stream whose counter stands at its last block but one: two blocks are there, and a byte more is refused at the end.
#[test]
fn key_streams_end(rt: HostRuntime) -> Result<(), Fail> {
    let alloc = rt.alloc();
    let mut iv = [0; 16];
    iv[..4].copy_from_slice(&[0xfe, 0xff, 0xff, 0xff]);
    let params = params(alloc, &[0; 32], &iv)?;
    let mut out = Vec::new(alloc);
    let pieces: [&[u8]; 3] = [&[0; 100], &[0; 28], &[0; 1]];
    let whole = run(alloc, Code::ChaCha20, None, &params, &pieces[..2], &mut out);
    assert_eq!(rt; (whole, out.len()), (Ok(()), 128));
    out.clear();
    let refused = run(alloc, Code::ChaCha20, None, &params, &pieces, &mut out);
    let end = RunRefused::NotFinished(FinishRefused::StreamEnd { blocks: 2 });
    assert_eq!(rt; (refused, out.len()), (Err(end), 128));
    Ok(())
}
