//! Callers that load and unload the same providers, one of which refuses a start, in twenty orders.

use crate::boxes::{count_of, refusing, words_of};
use ossl_base::{MemFiles, MemSink, MemSource};
use ossl_provider::Boxed;
use ossl_run::replay;
use std::alloc::{AllocError, Global};
use std::test::Fail;

const BATCH: &[u8] = b"1 load 0 A X\n\
    1 fetch 0 digest SHA2-256 M\n\
    1 unload X\n\
    1 free M\n\
    2 load 0 A Y\n\
    2 unload Y\n\
    3 load 0 B Z\n\
    3 unload Z\n";

/// What is written in the first order, where no start is refused.
const WORKED: &[u8] = b"order 9\n\
    1 1 load 0 A: ok 1 skipped 0; start A 1\n\
    2 1 fetch 0 digest SHA2-256 []: ok A 1 0\n\
    3 1 unload 1: ok\n\
    4 2 load 0 A: ok 1 skipped 0\n\
    5 2 unload 4: ok\n\
    6 3 load 0 B: ok 6 skipped 0; start B 6\n\
    7 3 unload 6: ok; stop B 6\n\
    8 1 free 2: ok; stop A 1\n\
    9 0 closelib 0: ok\n\
    results 8\n\
    line 1 ok skipped 0\n\
    line 2 ok A\n\
    line 3 ok\n\
    line 4 ok\n\
    line 5 ok skipped 0\n\
    line 6 ok\n\
    line 7 ok skipped 0\n\
    line 8 ok\n";

const ORDERS: [&str; 20] = [
    "1,1,1,2,2,3,3,1",
    "1,1,1,1,2,2,3,3",
    "3,3,2,2,1,1,1,1",
    "2,2,1,1,1,1,3,3",
    "1,2,3,1,2,3,1,1",
    "3,2,1,3,2,1,1,1",
    "2,1,2,1,3,1,3,1",
    "1,2,1,2,1,3,1,3",
    "2,3,1,1,2,3,1,1",
    "1,3,1,3,1,2,1,2",
    "3,1,1,3,1,2,2,1",
    "2,1,1,2,1,1,3,3",
    "1,2,2,1,1,3,3,1",
    "3,1,2,1,3,1,2,1",
    "1,1,2,2,1,1,3,3",
    "2,3,3,2,1,1,1,1",
    "3,2,2,1,1,3,1,1",
    "1,1,2,3,3,2,1,1",
    "2,1,3,1,1,1,2,3",
    "1,1,3,2,1,2,3,1",
];

/// What a run in this order writes, where A refuses these starts, with its status.
fn run(alloc: Global, order: &str, refused: &[u64]) -> Result<(u8, Vec<u8>), AllocError> {
    let words = words_of(alloc, &["run", "--order", order])?;
    let mut source = MemSource::new(Vec::from_slice(alloc, BATCH)?, 1_000, Vec::new(alloc));
    let mut files = MemFiles::new(Vec::new(alloc), Vec::new(alloc));
    let mut sink = MemSink::new(alloc, 1_000, 1_000, Vec::new(alloc))?;
    let first: Boxed = Box::new(alloc, refusing(alloc, b"A", refused)?)?;
    let second: Boxed = Box::new(alloc, refusing(alloc, b"B", &[])?)?;
    let catalogue = Vec::from_array(alloc, [first, second])?;
    let outcome = replay(
        alloc,
        words.as_slice(),
        &mut source,
        &mut files,
        &mut sink,
        catalogue,
    );
    Ok((outcome.status, Vec::from_slice(alloc, sink.taken())?))
}

#[test]
fn what_is_started_is_stopped_in_any_order(rt: HostRuntime) -> Result<(), Fail> {
    let alloc = rt.alloc();
    let choices: [&[u64]; 3] = [&[], &[1], &[2]];
    for order in ORDERS {
        for refused in choices {
            let (status, written) = run(alloc, order, refused)?;
            assert_eq!(rt; status, 0);
            let started = count_of(written.as_slice(), b"; start ");
            assert!(rt; started > 0);
            assert_eq!(rt; started, count_of(written.as_slice(), b"; stop "));
        }
    }
    Ok(())
}

#[test]
fn a_run_in_the_first_order_is_written(rt: HostRuntime) -> Result<(), Fail> {
    let (status, written) = run(rt.alloc(), ORDERS[0], &[])?;
    assert_eq!(rt; status, 0);
    assert_eq!(rt; written.as_slice(), WORKED);
    Ok(())
}
