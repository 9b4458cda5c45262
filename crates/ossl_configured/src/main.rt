//! Reads a configuration on standard input, where one file, `f`, can be included, which is empty, and tells what is
//! set or why it is refused: a program for measurements of `read_conf`, with the tests of `ossl_conf`.
//! It promises no more than that it ends; what it tells is seen by reading.
#![tactic(auto)]

mod answer;
#[cfg(test)]
mod tests;

use ossl_base::{Bytes, MemFiles, StdSource, Text, read_all};
use ossl_conf::{MOST_BYTES, read_conf};
use std::alloc::{AllocError, Global};
use std::io::{self, Write};

fn main(rt: HostRuntime) -> io::Result<()> {
    let alloc = rt.alloc();
    let mut source = StdSource::new(rt.stdin());
    let Ok(text) = read_all(alloc, &mut source, MOST_BYTES) else {
        return println!(rt; "the text was not read");
    };
    let mut files = empty_file(alloc)?;
    let read = read_conf(alloc, text.as_slice(), &mut files);
    let line = answer::line_of(alloc, &read)?;
    rt.stdout().write_all(line.as_slice())
}

/// One file, `f`, which is empty.
fn empty_file(alloc: Global) -> Result<MemFiles, AllocError> {
    let mut files = Vec::new(alloc);
    let name = Text::of(Vec::from_slice(alloc, b"f")?);
    files.push((name, Bytes::of(Vec::new(alloc))))?;
    Ok(MemFiles::new(files, Vec::new(alloc)))
}
