// Codes that RFC 4231 and OpenSSL 3.0 give, and keys that RFC 6070 and OpenSSL 3.0 give.

use crate::{Hmac, pbkdf2};
use ossl_digests::{Digester, Hash, HashValue};
use std::test::Fail;

const QUESTION: &[u8] = b"what do ya want for nothing?";

// Each hash, with the digest of four joined codes of the question, under the keys 0, 1, 2 .. of 0, B - 1,
// B and B + 1 bytes, B being the length of a block.
const CODES: [(Hash, &str); 9] = [
    (Hash::Sha1, "249d54aa69ce8bebba672ae06a6ba96115daefc5"),
    (
        Hash::Sha224,
        "6d154696ba3953bcf8b4394b409fb789b0eadc3864690cf6722e3000",
    ),
    (
        Hash::Sha256,
        "acf58f9a9abc2e15c3dd0fc0af145330b51530cfdacfa98969d9c3c4d471ddd4",
    ),
    (
        Hash::Sha384,
        "d5654209481e6b87379352b2880dee13d612cebdbd5cbc45980047503e362b592cf56714cce3b7f185ba7e00f4a5a509",
    ),
    (
        Hash::Sha512,
        "f76e28d225f603d1c8dcfa517b11363a3e5f24b870a7ff4cf59309a02a631639f7ed5b42ad1a1959aab8f52607dae0ee6854c39ed7a776e116766f1fa1f1538d",
    ),
    (
        Hash::Sha512t224,
        "816b8646a3150d440c0addb8dc7c698660aa2fa2f571a94980de498a",
    ),
    (
        Hash::Sha512t256,
        "4e0996a817c61998c502acf5c1c553e99c206e1924c08b935218074ceb98785a",
    ),
    (Hash::Md5, "d5f38a984100b43cafd794bebb05135a"),
    (Hash::Md4, "3e79163b3464665e9220f8e7044448a8"),
];

// A code of bytes that come one at a time.
fn byte_by_byte(hash: Hash, key: &[u8], bytes: &[u8]) -> HashValue {
    let mut mac = Hmac::new(hash, key);
    for i in 0..bytes.len() {
        mac.feed(&bytes[i..i + 1]);
    }
    mac.finish()
}

#[test]
fn keys_about_a_block(rt: HostRuntime) -> Result<(), Fail> {
    let mut key = [0u8; 129];
    for i in 0..129usize {
        key[i] = i as u8;
    }
    for (hash, digest) in &CODES {
        let block = hash.block_len();
        let mut digester = Digester::new(*hash);
        for size in [0, block - 1, block, block + 1] {
            assert!(rt; size <= 129);
            digester.feed(byte_by_byte(*hash, &key[..size], QUESTION).as_slice());
        }
        let value = digester.finish();
        assert_eq!(rt;
            hex::encode(rt.alloc(), value.as_slice())?.as_str(),
            *digest
        );
    }
    Ok(())
}

// RFC 4231, cases 2 and 6.
#[test]
fn published_codes(rt: HostRuntime) -> Result<(), Fail> {
    let code = byte_by_byte(Hash::Sha256, b"Jefe", QUESTION);
    assert_eq!(rt;
        hex::encode(rt.alloc(), code.as_slice())?.as_str(),
        "5bdcc146bf60754e6a042426089575c75a003f089d2739839dec58b964ec3843"
    );
    let key = [0xAAu8; 131];
    let text = b"Test Using Larger Than Block-Size Key - Hash Key First";
    let mut mac = Hmac::new(Hash::Sha256, &key);
    mac.feed(&text[..20]);
    let mut other = mac.copy();
    mac.feed(&text[20..]);
    let code = mac.finish();
    assert_eq!(rt;
        hex::encode(rt.alloc(), code.as_slice())?.as_str(),
        "60e431591ee0b67f0d8a26aacbf5b77f8e0bc6213728c5140546040f0ee37f54"
    );
    other.feed(&text[20..]);
    assert_eq!(rt; other.finish().as_slice(), code.as_slice());
    Ok(())
}

// Passwords, salts and rounds, with the keys out of them: RFC 6070, and two of OpenSSL 3.0.
const KEYS: [(Hash, &str, &str, u32, &str); 7] = [
    (
        Hash::Sha1,
        "password",
        "salt",
        1,
        "0c60c80f961f0e71f3a9b524af6012062fe037a6",
    ),
    (
        Hash::Sha1,
        "password",
        "salt",
        2,
        "ea6c014dc72d6f8ccd1ed92ace1d41f0d8de8957",
    ),
    (
        Hash::Sha1,
        "password",
        "salt",
        4096,
        "4b007901b765489abead49d926f721d065a429c1",
    ),
    (
        Hash::Sha1,
        "passwordPASSWORDpassword",
        "saltSALTsaltSALTsaltSALTsaltSALTsalt",
        4096,
        "3d2eec4fe41c849b80c8d83662c0e44a8b291a964cf2f07038",
    ),
    (
        Hash::Sha1,
        "pass\0word",
        "sa\0lt",
        4096,
        "56fa6aa75548099dcc37d7f03425e0c3",
    ),
    (
        Hash::Sha256,
        "password",
        "salt",
        1,
        "120fb6cffcf8b32c43e7225256c4f837a86548c92ccc35480805987cb70be17b",
    ),
    (
        Hash::Sha256,
        "password",
        "salt",
        2,
        "ae4d0c95af6b46d32d0adff928f06dd02a303f8ef3c251dfd6e2d85a95474c43",
    ),
];

#[test]
fn published_keys(rt: HostRuntime) -> Result<(), Fail> {
    for (hash, password, salt, rounds, key) in &KEYS {
        let mut room = [0; 64];
        let len = key.len() / 2;
        assert!(rt; len <= 64);
        assert!(rt; *rounds >= 1);
        pbkdf2(
            *hash,
            password.as_bytes(),
            salt.as_bytes(),
            *rounds,
            &mut room[..len],
        );
        assert_eq!(rt; hex::encode(rt.alloc(), &room[..len])?.as_str(), *key);
    }
    Ok(())
}
