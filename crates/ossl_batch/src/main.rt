//! Answers a batch on standard input, each caller in a thread of its own, with the order in which its registry calls
//! took place and the results, on standard output.
//! It makes the real source and sink, the files of the working folder, the five built-in boxes and a gate that holds
//! nobody back, calls `batch`, and ends with its status.
//! What it promises is the contract of `batch`; that the streams are the real ones is seen by reading.
#![tactic(auto)]

ghost use Rattle.std.specs.Prelude.{◌≤◌, ◌≡◌, length, map, IfOk};
ghost use Rattle.ossl_provider.specs.Sheet.{Facts, Sheet};
ghost use Rattle.ossl_provider.specs.Table.{table_facts, table_sheet};
ghost use Rattle.ossl_rows.specs.Tables.{table_of};
ghost use Rattle.ossl_calls.specs.Registry.{IsCatalogue};

use ossl_base::{Files, Sink, Source, StdSink, StdSource};
use ossl_files::{DirFiles, words};
use ossl_par::batch;
use ossl_provider::Boxed;
use ossl_rows::{Builtin, builtin};
use ossl_worker::OpenGate;
use std::alloc::{AllocError, Global};
use std::process::ExitCode;
use std::sync::Wait;
use std::thread::Threads;
use std::{env, mem};

/// The status for want of memory.
const NO_MEMORY: u8 = 9;

/// Answers the batch of a source over the five built-in providers, and gives the status.
fn answer<R: Threads + Wait + Sync, S: Source, F: Files, K: Sink>(
    rt: &R,
    alloc: Global,
    words: &[String],
    source: &mut S,
    files: &mut F,
    sink: &mut K,
) -> Result<u8, AllocError> {
    let default: Boxed = Box::new(alloc, builtin(alloc, Builtin::Default)?)?;
    let legacy: Boxed = Box::new(alloc, builtin(alloc, Builtin::Legacy)?)?;
    let fips: Boxed = Box::new(alloc, builtin(alloc, Builtin::Fips)?)?;
    let null: Boxed = Box::new(alloc, builtin(alloc, Builtin::Null)?)?;
    let base: Boxed = Box::new(alloc, builtin(alloc, Builtin::Base)?)?;
    let catalogue = Vec::from_array(alloc, [default, legacy, fips, null, base])?;
    let outcome = batch(rt, alloc, words, source, files, sink, catalogue, &OpenGate);
    let status = outcome.status;
    // The program ends here: what is left is not freed piece by piece.
    mem::forget(outcome);
    Ok(status)
}

/// Runs the program, and gives its status.
fn run<R: Threads + Wait + Sync>(rt: &HostRuntime, threads: &R) -> Result<u8, AllocError> {
    let words = words(rt.alloc(), env::args(rt))?;
    let mut source = StdSource::new(rt.stdin());
    let mut files = DirFiles::new(rt);
    let mut sink = StdSink::new(rt.stdout());
    answer(
        threads,
        rt.alloc(),
        words.as_slice(),
        &mut source,
        &mut files,
        &mut sink,
    )
}

fn main(rt: HostRuntime) -> ExitCode {
    match run(&rt, &rt) {
        Ok(status) => ExitCode::from(status),
        Err(AllocError) => ExitCode::from(NO_MEMORY),
    }
}
