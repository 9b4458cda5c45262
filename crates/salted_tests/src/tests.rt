use ossl_base::{Bytes, MemFiles, MemSink, MemSource, Text};
use ossl_salted::enc;
use std::alloc::{AllocError, Global};
use std::process::Abort;
use std::test::Fail;

const ENCRYPT: &[&str] = &["encrypt", "0001020304050607", "pass"];

const DECRYPT: &[&str] = &["decrypt", "pass"];

const FEW_ROUNDS: &[&str] = &["--rounds", "2"];

// What OpenSSL 3.0 gives of no bytes, with this salt, the password `password` and 10,000 rounds.
const EMPTY: [u8; 32] = [
    0x53, 0x61, 0x6c, 0x74, 0x65, 0x64, 0x5f, 0x5f, 0x00, 0x01, 0x02, 0x03, 0x04, 0x05, 0x06, 0x07,
    0xb8, 0xc8, 0x43, 0xde, 0xe8, 0x89, 0xde, 0x28, 0x0a, 0xf3, 0x25, 0x46, 0x41, 0x6b, 0x79, 0x04,
];

// What is handed to a run: its words, what comes in, the most bytes of a read or a write, and the read, the look and the
// write that fail, counted from 1; 0 is none.
#[derive(Clone, Copy)]
struct Case<'a> {
    words: &'a [&'a str],
    options: &'a [&'a str],
    input: &'a [u8],
    most: usize,
    failing_read: u64,
    failing_look: u64,
    failing_write: u64,
}

// What a run left.
#[derive(Drop)]
struct Left {
    status: u8,
    output: Vec<u8>,
}

const PLAIN: Case = Case {
    words: ENCRYPT,
    options: &[],
    input: &[],
    most: 4096,
    failing_read: 0,
    failing_look: 0,
    failing_write: 0,
};

fn run(alloc: Global, case: Case) -> Result<Left, AllocError> {
    let mut words = Vec::new(alloc);
    for word in case.words {
        words.push(String::from_str(alloc, word)?)?;
    }
    for word in case.options {
        words.push(String::from_str(alloc, word)?)?;
    }
    let most = case.most.max(1);
    let input = Vec::from_slice(alloc, case.input)?;
    let fail = Vec::from_array(alloc, [case.failing_read])?;
    let mut source = MemSource::new(input, most, fail);
    let fail = Vec::from_array(alloc, [case.failing_write])?;
    let mut sink = MemSink::new(alloc, 20_000, most, fail)?;
    let name = Text::of(Vec::from_slice(alloc, b"pass")?);
    let content = Bytes::of(Vec::from_slice(alloc, b"password\n")?);
    let fail = Vec::from_array(alloc, [case.failing_look])?;
    let mut files = MemFiles::new(Vec::from_array(alloc, [(name, content)])?, fail);
    let status = enc(alloc, words.as_slice(), &mut source, &mut files, &mut sink);
    let output = Vec::from_slice(alloc, sink.taken())?;
    Ok(Left { status, output })
}

// A file of no bytes, which is refused where its end is missing.
#[test]
fn no_bytes(rt: HostRuntime) -> Result<(), Fail> {
    let left = run(rt.alloc(), PLAIN)?;
    assert_eq!(rt; left.status, 0);
    assert_eq!(rt; left.output.as_slice(), EMPTY.as_slice());
    for (len, status) in [(32usize, 0u8), (31, 6), (16, 6), (15, 5), (0, 5)] {
        assert!(rt; len <= 32);
        let left = run(
            rt.alloc(),
            Case {
                words: DECRYPT,
                input: &EMPTY[..len],
                ..PLAIN
            },
        )?;
        assert_eq!(rt; left.status, status, "of {len} bytes");
        assert_eq!(rt; left.output.len(), 0);
    }
    Ok(())
}

// 10,000 bytes under each size go there and back, in pieces of each length.
#[test]
fn there_and_back(rt: HostRuntime) -> Result<(), Fail> {
    let mut text = [0; 10_000];
    for i in 0..10_000usize {
        text[i] = (i * 7 % 251) as u8;
    }
    for bits in ["128", "192", "256"] {
        let there = Case {
            options: &["--bits", bits, "--rounds", "2"],
            input: &text,
            ..PLAIN
        };
        let whole = run(rt.alloc(), there)?;
        assert_eq!(rt; whole.output.len(), 10_032);
        for most in [1usize, 15, 16, 17, 4096] {
            let file = run(rt.alloc(), Case { most, ..there })?;
            assert_eq!(rt; file.status, 0);
            assert_eq!(rt; file.output.as_slice(), whole.output.as_slice());
            let back = run(
                rt.alloc(),
                Case {
                    words: DECRYPT,
                    input: file.output.as_slice(),
                    most,
                    ..there
                },
            )?;
            assert_eq!(rt; back.status, 0, "{bits} bits in pieces of {most}");
            assert_eq!(rt; back.output.as_slice(), text.as_slice());
        }
    }
    Ok(())
}

// Each read and each write fails in turn, and what is written then is a beginning; so does the password's file.
fn fails_in_turn(
    rt: &(impl Abort + AllocGlobal),
    case: Case,
    due: &[u8],
    reads: u64,
) -> Result<(), Fail> {
    for call in 1..20u64 {
        let failing = Case {
            failing_read: call,
            ..case
        };
        let left = run(rt.alloc(), failing)?;
        assert_eq!(rt; left.status == 3, call <= reads, "at the read {call}");
        assert!(rt; due.starts_with(left.output.as_slice()));
        let failing = Case {
            failing_write: call,
            ..case
        };
        let left = run(rt.alloc(), failing)?;
        let cut = left.output.len() < due.len();
        assert_eq!(rt; left.status == 4, cut, "at the write {call}");
        assert!(rt; due.starts_with(left.output.as_slice()));
    }
    let failing = Case {
        failing_look: 1,
        ..case
    };
    let left = run(rt.alloc(), failing)?;
    assert_eq!(rt; left.status, 3);
    assert_eq!(rt; left.output.len(), 0);
    Ok(())
}

#[test]
fn faults(rt: HostRuntime) -> Result<(), Fail> {
    let text = [b'x'; 5_000];
    let there = Case {
        options: FEW_ROUNDS,
        input: &text,
        most: 1_000,
        ..PLAIN
    };
    let file = run(rt.alloc(), there)?;
    // 5 pieces and the end are read of the text; its file has a header before them, and 8 bytes more of padding.
    fails_in_turn(&rt, there, file.output.as_slice(), 6)?;
    let back = Case {
        words: DECRYPT,
        input: file.output.as_slice(),
        ..there
    };
    fails_in_turn(&rt, back, &text, 8)
}
