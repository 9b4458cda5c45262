// Worked texts, the bounds of a key's length, and one byte at a time.
use crate::{KeyLength, Rc4};
use std::test::Fail;

// A key, a text and RC4 of it: three that are often quoted, and the first key stream bytes of RFC 6229 for 40 and 256 bits.
const WORKED: [(&[u8], &[u8], &[u8]); 5] = [
    (
        b"Key",
        b"Plaintext",
        &[0xbb, 0xf3, 0x16, 0xe8, 0xd9, 0x40, 0xaf, 0x0a, 0xd3],
    ),
    (b"Wiki", b"pedia", &[0x10, 0x21, 0xbf, 0x04, 0x20]),
    (
        b"Secret",
        b"Attack at dawn",
        &[
            0x45, 0xa0, 0x1f, 0x64, 0x5f, 0xc3, 0x5b, 0x38, 0x35, 0x52, 0x54, 0x4b, 0x9b, 0xf5,
        ],
    ),
    (
        &[1, 2, 3, 4, 5],
        &[0, 0, 0, 0, 0, 0, 0, 0],
        &[0xb2, 0x39, 0x63, 0x05, 0xf0, 0x3d, 0xc0, 0x27],
    ),
    (
        &[
            1, 2, 3, 4, 5, 6, 7, 8, 9, 10, 11, 12, 13, 14, 15, 16, 17, 18, 19, 20, 21, 22, 23, 24,
            25, 26, 27, 28, 29, 30, 31, 32,
        ],
        &[0, 0, 0, 0, 0, 0, 0, 0],
        &[0xea, 0xa6, 0xbd, 0x25, 0x88, 0x0b, 0xf9, 0x3d],
    ),
];

#[test]
fn gives_worked_texts(rt: HostRuntime) -> Result<(), Fail> {
    for (key, text, want) in WORKED {
        let mut whole = Rc4::new(key).expect(&rt, "a key");
        let mut bytewise = Rc4::new(key).expect(&rt, "a key");
        let mut out: Vec<u8> = Vec::new(rt.alloc());
        let mut slow: Vec<u8> = Vec::new(rt.alloc());
        whole.apply(text, &mut out)?;
        for &byte in text {
            bytewise.apply(&[byte], &mut slow)?;
        }
        assert_eq!(rt; out.as_slice(), want);
        assert_eq!(rt; slow.as_slice(), want, "one byte at a time");
    }
    Ok(())
}

#[test]
fn takes_keys_of_1_to_256_bytes(rt: HostRuntime) -> Result<(), Fail> {
    let bytes = vec![in rt.alloc(); 0u8; 257]?;
    for (size, got) in [(0, Some(0)), (1, None), (256, None), (257, Some(257))] {
        let key = bytes.get(..size).ok_or("a size")?;
        assert_eq!(rt;
            Rc4::new(key).err(),
            got.map(|got| KeyLength { got }),
            "at {size}"
        );
    }
    Ok(())
}

// The longest key, 0 to 255, as real OpenSSL gives it.
#[test]
fn takes_every_byte_of_the_longest_key(rt: HostRuntime) -> Result<(), Fail> {
    let key: Vec<u8> = (0..=255u8).collect(rt.alloc())?;
    let mut stream = Rc4::new(&key).expect(&rt, "a key");
    let mut out: Vec<u8> = Vec::new(rt.alloc());
    stream.apply(&[0; 8], &mut out)?;
    assert_eq!(rt;
        out.as_slice(),
        [0x5e, 0x2e, 0xb7, 0xb2, 0x0d, 0x86, 0x86, 0x4f].as_slice()
    );
    Ok(())
}
