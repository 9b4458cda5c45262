ghost use Rattle.std.specs.Prelude.{◌≡◌, IfOk};

use crate::{
    Bytes, FileRefusal, Files, MemFiles, MemSink, MemSource, ReadRefusal, StdSink, StdSource, Text,
    put_decimal, put_hex, read_all, write_all,
};
use std::alloc::{AllocError, Global};
use std::fs;
use std::test::Fail;

const SENTENCE: &[u8] = b"The quick brown fox jumps over the lazy dog";

fn text(alloc: Global, bytes: &[u8]) -> Result<Text, AllocError>
    ensures { IfOk result (λ text. text ≡ bytes.now) }
{
    Ok(Text::of(Vec::from_slice(alloc, bytes)?))
}

#[test]
fn reads_all_in_pieces_of_any_length(rt: HostRuntime) -> Result<(), Fail> {
    let alloc = rt.alloc();
    for most in [1, 10, 1000] {
        let bytes = Vec::from_slice(alloc, SENTENCE)?;
        let mut source = MemSource::new(bytes, most, Vec::new(alloc));
        let all = read_all(alloc, &mut source, 43).map_err(|_| "refused")?;
        assert_eq!(rt; all.as_slice(), SENTENCE, "{most} bytes a call");
    }
    Ok(())
}

#[test]
fn one_byte_more_than_the_limit_is_too_long(rt: HostRuntime) -> Result<(), Fail> {
    let alloc = rt.alloc();
    for most in [1, 10, 1000] {
        let bytes = Vec::from_slice(alloc, SENTENCE)?;
        let mut source = MemSource::new(bytes, most, Vec::new(alloc));
        let refused = read_all(alloc, &mut source, 42);
        assert!(rt;
            matches!(refused, Err(ReadRefusal::TooLong)),
            "{most} bytes a call"
        );
    }
    Ok(())
}

#[test]
fn a_read_that_fails_in_mid_stream_is_told(rt: HostRuntime) -> Result<(), Fail> {
    let alloc = rt.alloc();
    let bytes = Vec::from_slice(alloc, SENTENCE)?;
    let mut source = MemSource::new(bytes, 10, Vec::from_slice(alloc, &[3])?);
    let refused = read_all(alloc, &mut source, 100);
    assert!(rt; matches!(refused, Err(ReadRefusal::Failed)));
    let rest = read_all(alloc, &mut source, 100).map_err(|_| "refused")?;
    assert_eq!(rt; rest.as_slice(), b"jumps over the lazy dog".as_slice());
    Ok(())
}

#[test]
fn writes_all_in_pieces_of_any_length(rt: HostRuntime) -> Result<(), Fail> {
    let alloc = rt.alloc();
    for most in [1, 10, 1000] {
        let mut sink = MemSink::new(alloc, 43, most, Vec::new(alloc))?;
        write_all(&mut sink, SENTENCE).map_err(|_| "refused")?;
        assert_eq!(rt; sink.taken(), SENTENCE, "{most} bytes a call");
    }
    Ok(())
}

#[test]
fn a_sink_that_fails_has_a_prefix(rt: HostRuntime) -> Result<(), Fail> {
    let alloc = rt.alloc();
    let mut full = MemSink::new(alloc, 9, 1000, Vec::new(alloc))?;
    assert!(rt; write_all(&mut full, SENTENCE).is_err());
    assert_eq!(rt; full.taken(), b"The quick".as_slice());
    let mut listed = MemSink::new(alloc, 43, 3, Vec::from_slice(alloc, &[2])?)?;
    assert!(rt; write_all(&mut listed, SENTENCE).is_err());
    assert_eq!(rt; listed.taken(), b"The".as_slice());
    Ok(())
}

#[test]
fn files_are_found_by_their_names(rt: HostRuntime) -> Result<(), Fail> {
    let alloc = rt.alloc();
    let first = Bytes::of(Vec::from_slice(alloc, b"first")?);
    let second = Bytes::of(Vec::from_slice(alloc, b"second")?);
    let files = [(text(alloc, b"a")?, first), (text(alloc, b"b")?, second)];
    let files = Vec::from_array(alloc, files)?;
    let mut files = MemFiles::new(files, Vec::from_slice(alloc, &[4])?);
    let second = files.read_whole(alloc, b"b", 6).map_err(|_| "refused")?;
    assert_eq!(rt; second.as_slice(), b"second".as_slice());
    let longer = files.read_whole(alloc, b"b", 5);
    assert!(rt; matches!(longer, Err(FileRefusal::TooLong)));
    let lacking = files.read_whole(alloc, b"c", 5);
    assert!(rt; matches!(lacking, Err(FileRefusal::Failed)));
    let listed = files.read_whole(alloc, b"a", 5);
    assert!(rt; matches!(listed, Err(FileRefusal::Failed)));
    let first = files.read_whole(alloc, b"a", 5).map_err(|_| "refused")?;
    assert_eq!(rt; first.as_slice(), b"first".as_slice());
    Ok(())
}

#[test]
fn digits_are_those_of_printf(rt: HostRuntime) -> Result<(), Fail> {
    let alloc = rt.alloc();
    let numbers = [
        (0, "0"),
        (7, "7"),
        (10, "10"),
        (65_536, "65536"),
        (u64::MAX, "18446744073709551615"),
    ];
    for (number, digits) in numbers {
        let mut out = Vec::from_slice(alloc, b"=")?;
        put_decimal(alloc, &mut out, number)?;
        assert_eq!(rt; &out[1..], digits.as_bytes(), "{number}");
    }
    let mut out = Vec::from_slice(alloc, b"=")?;
    put_hex(alloc, &mut out, &[0x00, 0x0f, 0xa5, 0xff])?;
    put_hex(alloc, &mut out, &[])?;
    assert_eq!(rt; out.as_slice(), b"=000fa5ff".as_slice());
    Ok(())
}

#[test]
fn texts_and_bytes_keep_what_they_were_made_of(rt: HostRuntime) -> Result<(), Fail> {
    let alloc = rt.alloc();
    let name = text(alloc, b"default")?;
    assert_eq!(rt; name.copy(alloc)?.as_slice(), name.as_slice());
    let content = Bytes::of(Vec::from_slice(alloc, SENTENCE)?);
    assert_eq!(rt; content.copy(alloc)?.as_slice(), SENTENCE);
    Ok(())
}

#[test]
fn a_real_file_takes_and_gives_all(rt: HostRuntime) -> Result<(), Fail> {
    let alloc = rt.alloc();
    let path = "stream";
    let mut sink = StdSink::new(fs::create(&rt, path)?);
    write_all(&mut sink, SENTENCE).map_err(|_| "write failed")?;
    let mut source = StdSource::new(fs::open(&rt, path)?);
    let all = read_all(alloc, &mut source, 100).map_err(|_| "read failed")?;
    fs::remove_file(&rt, path)?;
    assert_eq!(rt; all.as_slice(), SENTENCE);
    Ok(())
}
