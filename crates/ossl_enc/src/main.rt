//! Encrypts standard input into the file of openssl-enc(1), or decrypts it, onto standard output.
//! It makes the real source, sink and files, calls `enc`, and ends with its status.
//! What it promises is the contract of `enc`; that the streams and files are the real ones is seen by reading.
#![tactic(auto)]

use ossl_base::{StdSink, StdSource};
use ossl_files::{DirFiles, words};
use ossl_salted::enc;
use std::alloc::AllocError;
use std::env;
use std::process::ExitCode;

/// The status for want of memory.
const NO_MEMORY: u8 = 9;

/// Runs the program, and gives its status.
fn run(rt: &HostRuntime) -> Result<u8, AllocError> {
    let words = words(rt.alloc(), env::args(rt))?;
    let mut source = StdSource::new(rt.stdin());
    let mut sink = StdSink::new(rt.stdout());
    let mut files = DirFiles::new(rt);
    let alloc = rt.alloc();
    let status = enc(alloc, words.as_slice(), &mut source, &mut files, &mut sink);
    Ok(status)
}

fn main(rt: HostRuntime) -> ExitCode {
    match run(&rt) {
        Ok(status) => ExitCode::from(status),
        Err(AllocError) => ExitCode::from(NO_MEMORY),
    }
}
