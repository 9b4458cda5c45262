// The published examples of RFC 5869 (A.1 to A.3), and the ends of the lengths.

use crate::{HkdfMode, HkdfRefused, hkdf};
use ossl_digests::{Digester, Hash};
use std::test::Fail;

const SALT: [u8; 13] = [0, 1, 2, 3, 4, 5, 6, 7, 8, 9, 10, 11, 12];

const INFO: [u8; 10] = [0xf0, 0xf1, 0xf2, 0xf3, 0xf4, 0xf5, 0xf6, 0xf7, 0xf8, 0xf9];

const KEY: [u8; 22] = [0x0b; 22];

const FIRST_KEY: &str = "077709362c2e32df0ddc3f0dc47bba6390b6c73bb50f9c3122ec844ad7c2b3e5";

const FIRST: &str =
    "3cb25f25faacd57a90434f64d0362f2a2d2d0a90cf1a5a4c5db02d56ecc4c5bf34007208d5b887185865";

const SECOND: &str =
    "b11e398dc80327a1c8e7f78c596a49344f012eda2d4efad8a050cc4c19afa97c59045a99cac7827271cb41c65e590e09da3275600c2f09b8367793a9aca3db71cc30c58179ec3e87c14c01d5c1f3434f1d87";

const THIRD: &str =
    "8da4e775a563c18f715f802a063c5a31b8a11f5c5ee1879ec3454e5f3c738d2d9d201395faa4b61a96c8";

// The digest of 8,160 bytes by the first example's words, as another program gives them.
const LONGEST: &str = "06ce7419405a88a66ba5c9795579cb05130c85101924d187552a0f7f57deb091";

// The bytes from one on, one after another.
fn counted(from: u8) -> [u8; 80] {
    let mut bytes = [from; 80];
    for i in 0..80usize {
        bytes[i] = from.wrapping_add(i as u8);
    }
    bytes
}

#[test]
fn published_examples(rt: HostRuntime) -> Result<(), Fail> {
    let alloc = rt.alloc();
    let bytes = hkdf(alloc, HkdfMode::Both, Hash::Sha256, &KEY, &SALT, &INFO, 42).expect(
        &rt, "memory",
    );
    assert_eq!(rt; hex::encode(alloc, bytes.as_slice())?.as_str(), FIRST);
    let key = hkdf(
        alloc,
        HkdfMode::Extract,
        Hash::Sha256,
        &KEY,
        &SALT,
        &INFO,
        9000,
    )
    .expect(&rt, "memory");
    assert_eq!(rt; hex::encode(alloc, key.as_slice())?.as_str(), FIRST_KEY);
    let bytes = hkdf(
        alloc,
        HkdfMode::Expand,
        Hash::Sha256,
        key.as_slice(),
        b"",
        &INFO,
        42,
    )
    .expect(&rt, "memory");
    assert_eq!(rt; hex::encode(alloc, bytes.as_slice())?.as_str(), FIRST);
    let bytes = hkdf(
        alloc,
        HkdfMode::Both,
        Hash::Sha256,
        &counted(0),
        &counted(0x60),
        &counted(0xb0),
        82,
    )
    .expect(&rt, "memory");
    assert_eq!(rt; hex::encode(alloc, bytes.as_slice())?.as_str(), SECOND);
    let bytes = hkdf(alloc, HkdfMode::Both, Hash::Sha256, &KEY, b"", b"", 42).expect(&rt, "memory");
    assert_eq!(rt; hex::encode(alloc, bytes.as_slice())?.as_str(), THIRD);
    Ok(())
}

#[test]
fn ends_of_the_lengths(rt: HostRuntime) -> Result<(), Fail> {
    let alloc = rt.alloc();
    let none = hkdf(alloc, HkdfMode::Both, Hash::Sha256, &KEY, &SALT, &INFO, 0).expect(
        &rt, "memory",
    );
    assert_eq!(rt; none.len(), 0);
    let most = hkdf(
        alloc,
        HkdfMode::Both,
        Hash::Sha256,
        &KEY,
        &SALT,
        &INFO,
        8160,
    )
    .expect(&rt, "memory");
    assert_eq!(rt; most.len(), 8160);
    let mut digester = Digester::new(Hash::Sha256);
    digester.feed(most.as_slice());
    assert_eq!(rt;
        hex::encode(alloc, digester.finish().as_slice())?.as_str(),
        LONGEST
    );
    let refused = hkdf(
        alloc,
        HkdfMode::Both,
        Hash::Sha256,
        &KEY,
        &SALT,
        &INFO,
        8161,
    );
    assert!(rt; matches!(&refused, Err(HkdfRefused::TooLong { limit: 8160 })));
    Ok(())
}
