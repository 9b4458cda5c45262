//! A run with a configuration, over devices that give and take little at once, each call of which fails in turn.

ghost use Rattle.std.specs.Prelude.{◌≡◌, ◌<◌, IfOk};

use crate::boxes::{text, words_of};
use ossl_base::text::Bytes;
use ossl_base::{MemFiles, MemSink, MemSource};
use ossl_provider::Boxed;
use ossl_rows::{Builtin, builtin};
use ossl_run::replay;
use std::alloc::{AllocError, Global};
use std::test::Fail;

const CONFIGURATION: &[u8] = b"openssl_conf = openssl_init\n\
    [openssl_init]\n\
    providers = provider_sect\n\
    alg_section = evp_properties\n\
    [provider_sect] # two of them\n\
    default = default_sect\n\
    legacy = legacy_sect\n\
    [default_sect]\n\
    activate = 1\n\
    [legacy_sect]\n\
    activate = yes\n\
    [evp_properties]\n\
    default_properties = ?provider=default\n";

/// It is read by four calls of at most 10 bytes, and one that finds the end.
const BATCH: &[u8] = b"1 dgst MD4 text:abc\n1 dgst SHA256";

const WRITTEN: &[u8] = b"order 14\n\
    1 0 load 0 default: ok 1 skipped 0; start default 1\n\
    2 0 load 0 legacy: ok 2 skipped 0; start legacy 2\n\
    3 0 default 0 [?provider=default]: ok\n\
    4 1 fetch 0 digest MD4 []: ok legacy 2 0\n\
    5 1 newctx 4 - 0: ok\n\
    6 1 freectx 5: ok\n\
    7 1 free 4: ok\n\
    8 1 fetch 0 digest SHA256 []: ok default 1 0\n\
    9 1 newctx 8 - 0: ok\n\
    10 1 freectx 9: ok\n\
    11 1 free 8: ok\n\
    12 0 unload 2: ok; stop legacy 2\n\
    13 0 unload 1: ok; stop default 1\n\
    14 0 closelib 0: ok\n\
    results 2\n\
    line 1 ok legacy a448017aaf21d8525fc10ae87aa6729d\n\
    line 2 ok default e3b0c44298fc1c149afbf4c8996fb92427ae41e4649b934ca495991b7852b855\n";

/// How many bytes a device gives or takes at once.
const MOST: usize = 10;

/// What is written over devices of which these calls fail, with the status.
fn run(
    alloc: Global,
    source_fails: &[u64],
    file_fails: &[u64],
    sink_fails: &[u64],
) -> Result<(u8, Vec<u8>), AllocError> {
    let words = words_of(alloc, &["run", "--conf", "openssl.cnf"])?;
    let batch = Vec::from_slice(alloc, BATCH)?;
    let mut source = MemSource::new(batch, MOST, Vec::from_slice(alloc, source_fails)?);
    let content = Bytes::of(Vec::from_slice(alloc, CONFIGURATION)?);
    let mut held = Vec::new(alloc);
    held.push((text(alloc, b"openssl.cnf")?, content))
        .map_err(AllocError::from)?;
    let mut files = MemFiles::new(held, Vec::from_slice(alloc, file_fails)?);
    let mut sink = MemSink::new(alloc, 1_000, MOST, Vec::from_slice(alloc, sink_fails)?)?;
    let default: Boxed = Box::new(alloc, builtin(alloc, Builtin::Default)?)?;
    let legacy: Boxed = Box::new(alloc, builtin(alloc, Builtin::Legacy)?)?;
    let catalogue = Vec::from_array(alloc, [default, legacy])?;
    let outcome = replay(
        alloc,
        words.as_slice(),
        &mut source,
        &mut files,
        &mut sink,
        catalogue,
    );
    Ok((outcome.status, Vec::from_slice(alloc, sink.taken())?))
}

#[test]
fn each_read_and_write_may_fail(rt: HostRuntime) -> Result<(), Fail> {
    let alloc = rt.alloc();
    let (status, written) = run(alloc, &[], &[], &[])?;
    assert_eq!(rt; status, 0);
    assert_eq!(rt; written.as_slice(), WRITTEN);
    for call in 1..6u64 {
        let (status, written) = run(alloc, &[call], &[], &[])?;
        assert_eq!(rt; status, 3);
        assert_eq!(rt; written.as_slice(), b"error read\n".as_slice());
        let (status, written) = run(alloc, &[], &[], &[call])?;
        assert_eq!(rt; status, 4);
        let taken = (call as usize - 1) * MOST;
        assert_eq!(rt; written.as_slice(), &WRITTEN[..taken]);
    }
    let (status, written) = run(alloc, &[], &[1], &[])?;
    assert_eq!(rt; status, 3);
    assert_eq!(rt; written.as_slice(), b"error read\n".as_slice());
    Ok(())
}
