// Digests that the standards and OpenSSL 3.0 give.

use crate::{Digester, Hash, HashValue};
use std::test::Fail;

// Each hash, with its digests of `abc`, of its digests of the messages 0, 1, 2 .. of 0 to 130 bytes
// joined, and of a million letters `a`.
const DIGESTS: [(Hash, &str, &str, &str); 9] = [
    (
        Hash::Sha1,
        "a9993e364706816aba3e25717850c26c9cd0d89d",
        "69e8170ae953351d42e29a858ad1f6d32b9fc7d5",
        "34aa973cd4c4daa4f61eeb2bdbad27316534016f",
    ),
    (
        Hash::Sha224,
        "23097d223405d8228642a477bda255b32aadbce4bda0b3f7e36c9da7",
        "3a2a6e33365742e52a7289b61065cf43210732822c8ed2da628cbdfd",
        "20794655980c91d8bbb4c1ea97618a4bf03f42581948b2ee4ee7ad67",
    ),
    (
        Hash::Sha256,
        "ba7816bf8f01cfea414140de5dae2223b00361a396177a9cb410ff61f20015ad",
        "e5bbbecd60c3632a3455f465bfd8b079c30ef608d2bcc34227f4e5573029020e",
        "cdc76e5c9914fb9281a1c7e284d73e67f1809a48a497200e046d39ccc7112cd0",
    ),
    (
        Hash::Sha384,
        "cb00753f45a35e8bb5a03d699ac65007272c32ab0eded1631a8b605a43ff5bed8086072ba1e7cc2358baeca134c825a7",
        "7e28327e6ccf669c8bf999ca76660734d85c7defe3bc3333cba6eb0094e2917f1b7fb81e36236c153c69d7d9cd8a9d12",
        "9d0e1809716474cb086e834e310a4a1ced149e9c00f248527972cec5704c2a5b07b8b3dc38ecc4ebae97ddd87f3d8985",
    ),
    (
        Hash::Sha512,
        "ddaf35a193617abacc417349ae20413112e6fa4e89a97ea20a9eeee64b55d39a2192992a274fc1a836ba3c23a3feebbd454d4423643ce80e2a9ac94fa54ca49f",
        "64f0fa2c388c213ab72e70dd7a2050b286b649a4d8502b11f1c224ddc64bd9fb2d81abe0a78506dbafc258aee626779af484fe171272cd6b816bf914a41d8927",
        "e718483d0ce769644e2e42c7bc15b4638e1f98b13b2044285632a803afa973ebde0ff244877ea60a4cb0432ce577c31beb009c5c2c49aa2e4eadb217ad8cc09b",
    ),
    (
        Hash::Sha512t224,
        "4634270f707b6a54daae7530460842e20e37ed265ceee9a43e8924aa",
        "48f3571323e0c3fefae4989b86728e07f9daff32eb619114756a2a59",
        "37ab331d76f0d36de422bd0edeb22a28accd487b7a8453ae965dd287",
    ),
    (
        Hash::Sha512t256,
        "53048e2681941ef99b2e29b76b4c7dabe4c2d0c634fc6d46e0e2f13107e7af23",
        "a2b95783538fde3ca04bf2a15ee044a3b171cd8c5b87bfd827cc69ac59bc187b",
        "9a59a052930187a97038cae692f30708aa6491923ef5194394dc68d56c74fb21",
    ),
    (
        Hash::Md5,
        "900150983cd24fb0d6963f7d28e17f72",
        "948a4ea64101794d6716d23b5585c2f6",
        "7707d6ae4e027c70eea2a935c2296f21",
    ),
    (
        Hash::Md4,
        "a448017aaf21d8525fc10ae87aa6729d",
        "967c606890ef5e5288583d317506cf32",
        "bbce80cc6bb65e5c6745e30d4eeca9a4",
    ),
];

// The rest of RFC 1320's test suite (A.5).
const MD4_SUITE: [(&str, &str); 4] = [
    ("a", "bde52cb31de33e46245e05fbdbd6fb24"),
    ("message digest", "d9130a8164549fe818874806e1c7014b"),
    (
        "abcdefghijklmnopqrstuvwxyz",
        "d79e1c308aa5bbcdeea8ed63df412da9",
    ),
    (
        "12345678901234567890123456789012345678901234567890123456789012345678901234567890",
        "e33b4ddc9c38f2199c3e7b164fcc0536",
    ),
];

fn of_whole(hash: Hash, bytes: &[u8]) -> HashValue {
    let mut digester = Digester::new(hash);
    digester.feed(bytes);
    digester.finish()
}

// The digest of bytes cut in three.
fn in_three(hash: Hash, bytes: &[u8]) -> HashValue {
    let third = bytes.len() / 3;
    let half = bytes.len() / 2;
    let mut digester = Digester::new(hash);
    digester.feed(&bytes[..third]);
    digester.feed(&bytes[third..half]);
    digester.feed(&bytes[half..]);
    digester.finish()
}

// A million letters `a`, in pieces of 0 to 1413 bytes and one of 1009.
fn of_million(hash: Hash) -> HashValue {
    let letters = [b'a'; 1414];
    let mut digester = Digester::new(hash);
    for size in 0..1414usize {
        digester.feed(&letters[..size]);
    }
    digester.feed(&letters[..1009]);
    digester.finish()
}

// The digest of the digests of the messages 0, 1, 2 .. of 0 to 130 bytes.
fn of_lengths(hash: Hash) -> HashValue {
    let mut bytes = [0u8; 130];
    for i in 0..130usize {
        bytes[i] = i as u8;
    }
    let mut digester = Digester::new(hash);
    for n in 0..131usize {
        digester.feed(in_three(hash, &bytes[..n]).as_slice());
    }
    digester.finish()
}

#[test]
fn known_digests(rt: HostRuntime) -> Result<(), Fail> {
    for (hash, short, lengths, million) in &DIGESTS {
        let value = of_whole(*hash, b"abc");
        assert_eq!(rt; value.as_slice().len(), hash.output_len());
        assert_eq!(rt; hex::encode(rt.alloc(), value.as_slice())?.as_str(), *short);
        let value = of_lengths(*hash);
        assert_eq!(rt;
            hex::encode(rt.alloc(), value.as_slice())?.as_str(),
            *lengths
        );
        let value = of_million(*hash);
        assert_eq!(rt;
            hex::encode(rt.alloc(), value.as_slice())?.as_str(),
            *million
        );
    }
    Ok(())
}

#[test]
fn md4_suite(rt: HostRuntime) -> Result<(), Fail> {
    for (text, digest) in &MD4_SUITE {
        let value = of_whole(Hash::Md4, text.as_bytes());
        assert_eq!(rt;
            hex::encode(rt.alloc(), value.as_slice())?.as_str(),
            *digest
        );
    }
    Ok(())
}

// A copy goes on from where it was made, and leaves the digester as it was.
#[test]
fn copies(rt: HostRuntime) -> Result<(), Fail> {
    for (hash, short, _, _) in &DIGESTS {
        assert!(rt; hash.block_len() >= 64);
        let mut digester = Digester::new(*hash);
        digester.feed(b"ab");
        let mut other = digester.copy();
        other.feed(b"c");
        digester.feed(b"d");
        assert_eq!(rt;
            hex::encode(rt.alloc(), other.finish().as_slice())?.as_str(),
            *short
        );
        let direct = of_whole(*hash, b"abd");
        assert_eq!(rt; digester.finish().as_slice(), direct.as_slice());
    }
    Ok(())
}
