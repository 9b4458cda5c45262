//! Runs over the built-in providers `default` and `legacy`.

use ossl_base::{MemFiles, MemSink, MemSource};
use ossl_par::batch;
use ossl_provider::Boxed;
use ossl_rows::{Builtin, builtin};
use ossl_worker::Gate;
use std::alloc::{AllocError, Global};
use std::sync::Wait;
use std::thread::Threads;

/// The words of a command line.
fn words_of(alloc: Global, words: &[&str]) -> Result<Vec<String>, AllocError> {
    let mut owned = Vec::new(alloc);
    for word in words {
        owned.push(String::from_str(alloc, word)?)?;
    }
    Ok(owned)
}

/// What the run of a batch writes, with its status.
pub fn run<R: Threads + Wait + Sync, G: Gate>(
    rt: &R,
    alloc: Global,
    text: &[u8],
    gate: &G,
) -> Result<(u8, Vec<u8>), AllocError> {
    let words = words_of(alloc, &["run"])?;
    let mut source = MemSource::new(Vec::from_slice(alloc, text)?, 10_000, Vec::new(alloc));
    let mut files = MemFiles::new(Vec::new(alloc), Vec::new(alloc));
    let mut sink = MemSink::new(alloc, 100_000, 100_000, Vec::new(alloc))?;
    let default: Boxed = Box::new(alloc, builtin(alloc, Builtin::Default)?)?;
    let legacy: Boxed = Box::new(alloc, builtin(alloc, Builtin::Legacy)?)?;
    let catalogue = Vec::from_array(alloc, [default, legacy])?;
    let outcome = batch(
        rt,
        alloc,
        words.as_slice(),
        &mut source,
        &mut files,
        &mut sink,
        catalogue,
        gate,
    );
    Ok((outcome.status, Vec::from_slice(alloc, sink.taken())?))
}
