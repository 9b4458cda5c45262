use crate::vectors::{ROWS, Row};
use crate::{Gcm, GcmRefused, run};
use ossl_aes::Aes;
use std::process::Abort;
use std::test::Fail;

fn aes(key: [u8; 16]) -> Aes<4, 44> {
    Aes::expand(&key)
}

// The key and the IV of zeros (the GCM specification's test cases 1 and 2).
fn of_zeros(rt: &impl Abort, decrypt: bool) -> Gcm<Aes<4, 44>> {
    Gcm::new(aes([0; 16]), &[0; 12], &[], decrypt).expect(rt, "an IV of 12 bytes")
}

const TAG: [u8; 16] = [
    0x58, 0xe2, 0xfc, 0xce, 0xfa, 0x7e, 0x30, 0x61, 0x36, 0x7f, 0x1d, 0x57, 0xa4, 0xe7, 0x45, 0x5a,
];

const SEALED: [u8; 32] = [
    0x03, 0x88, 0xda, 0xce, 0x60, 0xb6, 0xa3, 0x92, 0xf3, 0x28, 0xc2, 0xb9, 0x71, 0xb2, 0xfe, 0x78,
    0xab, 0x6e, 0x47, 0xd4, 0x2c, 0xec, 0x13, 0xbd, 0xf5, 0x3a, 0x67, 0xb2, 0x12, 0x57, 0xbd, 0xdf,
];

#[test]
fn encryption(rt: HostRuntime) -> Result<(), Fail> {
    let mut out = Vec::new(rt.alloc());
    assert_eq!(rt; run(of_zeros(&rt, false), &[], &mut out), Ok(()));
    assert_eq!(rt; out.as_slice(), TAG.as_slice());
    out.truncate(0);
    let mut gcm = of_zeros(&rt, false);
    gcm.feed(&[0; 16], &mut out)?;
    assert_eq!(rt; out.as_slice(), &SEALED[..16], "as it goes");
    assert_eq!(rt; gcm.finish(&mut out), Ok(()));
    assert_eq!(rt; out.as_slice(), SEALED.as_slice());
    Ok(())
}

#[test]
fn decryption(rt: HostRuntime) -> Result<(), Fail> {
    let mut out = Vec::new(rt.alloc());
    let mut gcm = of_zeros(&rt, true);
    gcm.feed(&SEALED, &mut out)?;
    assert_eq!(rt; out.len(), 0, "nothing before the tag");
    assert_eq!(rt; gcm.finish(&mut out), Ok(()));
    assert_eq!(rt; out.as_slice(), [0; 16].as_slice());
    let mut wrong = SEALED;
    wrong[31] = 0xde;
    assert_eq!(rt;
        run(of_zeros(&rt, true), &[&wrong], &mut out),
        Err(GcmRefused::BadTag)
    );
    assert_eq!(rt;
        run(of_zeros(&rt, true), &[&SEALED[..15]], &mut out),
        Err(GcmRefused::BadTag)
    );
    assert_eq!(rt; out.len(), 16, "nothing is appended");
    assert_eq!(rt; run(of_zeros(&rt, true), &[&SEALED], &mut out), Ok(()));
    assert_eq!(rt; out.len(), 32, "appended to what stood there");
    Ok(())
}

#[test]
fn iv_lengths(rt: HostRuntime) {
    for (length, wanted) in [(0usize, false), (1, true), (128, true), (129, false)] {
        let iv = [0; 129];
        let gcm = Gcm::new(aes([0; 16]), &iv[..length], &[], false);
        assert_eq!(rt; gcm.is_ok(), wanted, "{length}");
    }
}

// Numbers that follow one another, in bytes.
fn counting<const N: usize>(first: u8, step: u8) -> [u8; N] {
    let mut bytes = [0; N];
    let mut byte = first;
    for i in 0..N {
        bytes[i] = byte;
        byte = byte.wrapping_add(step);
    }
    bytes
}

// A whole text in three pieces, with the first bytes of the IV and of the additional data.
fn in_three(
    rt: &impl Abort,
    row: &Row,
    aad: &[u8],
    decrypt: bool,
    text: &[u8],
    out: &mut Vec<u8>,
) -> Result<(), GcmRefused> {
    let iv: [u8; 128] = counting(1, 3);
    let gcm = Gcm::new(
        aes(counting(0, 1)),
        &iv[..row.iv_len.min(128)],
        aad,
        decrypt,
    );
    let (first, rest) = text.split_at(text.len() / 3);
    let (second, third) = rest.split_at(rest.len() / 2);
    run(gcm.expect(rt, "an IV"), &[first, second, third], out)
}

#[test]
fn values_of_openssl(rt: HostRuntime) -> Result<(), Fail> {
    let (text, aad): ([u8; 49], [u8; 49]) = (counting(0, 1), counting(128, 1));
    for row in &ROWS {
        for n in 0..50usize {
            let (mut sealed, mut opened) = (Vec::new(rt.alloc()), Vec::new(rt.alloc()));
            let aad = &aad[..49 - n];
            assert_eq!(rt;
                in_three(&rt, row, aad, false, &text[..n], &mut sealed),
                Ok(())
            );
            let (ciphertext, tag) = sealed.as_slice().split_at(n.min(sealed.len()));
            assert_eq!(rt; ciphertext, &row.ciphertext[..n], "{} {n}", row.iv_len);
            assert_eq!(rt;
                tag,
                row.tags[n].to_be_bytes().as_slice(),
                "{} {n}",
                row.iv_len
            );
            assert_eq!(rt; in_three(&rt, row, aad, true, &sealed, &mut opened), Ok(()));
            assert_eq!(rt; opened.as_slice(), &text[..n], "{} {n}", row.iv_len);
        }
    }
    Ok(())
}
