//! The files of the system and the words of a program: `DirFiles` and `words`, with std's streams the trusted outside.
//! Promise: a file that cannot be read is counted, and none is longer than the limit. What a file holds no clause says.
//! Files are found as open(2) finds them, from the working folder. Work grows with the bytes of a file.
#![tactic(auto)]

mod arguments;
#[cfg(test)]
mod tests;

ghost use Rattle.std.specs.Prelude.{◌≡◌, ◌≤◌, length, IfOk, None};

pub use crate::arguments::words;
use ossl_base::{FileRefusal, Files, ReadRefusal, StdSource, read_all};
use std::alloc::Global;
use std::io::{ErrorKind, Read};
use std::marker::Model;
use std::{fs, rt};

/// The files of the system, looked for from the working folder. They tell no names; contracts see their count of
/// faults, which rises at each file that cannot be read.
#[derive(Drop)]
pub struct DirFiles<'a, R: rt::Files> {
    runtime: &'a R,
    faults: u64,
}

impl<'a, R: rt::Files> Model for DirFiles<'a, R> {
    ghost use Rattle.std.specs.Prelude.{ℕ};

    ghost Value = { ℕ };

    ghost view = { λ s. s.faults };
}

impl<'a, R: rt::Files> DirFiles<'a, R> {
    /// The files with no fault so far.
    pub fn new(runtime: &'a R) -> DirFiles<'a, R>
        ensures count { result ≡ 0 }
    {
        DirFiles { runtime, faults: 0 }
    }
}

impl<'a, R: rt::Files> Files for DirFiles<'a, R> {
    ghost entries = { λ _. None };

    ghost faults = { λ s. s };

    fn read_whole(
        &mut self,
        alloc: Global,
        name: &[u8],
        limit: u64,
    ) -> Result<Vec<u8>, FileRefusal> {
        match content(alloc, self.runtime, name, limit) {
            Err(FileRefusal::Failed) => {
                self.faults = self.faults.saturating_add(1);
                Err(FileRefusal::Failed)
            }
            answer => answer,
        }
    }
}

/// The content of a file of at most `limit` bytes; at most one more is read. A name that is not UTF-8 is none's.
fn content<R: rt::Files>(
    alloc: Global,
    runtime: &R,
    name: &[u8],
    limit: u64,
) -> Result<Vec<u8>, FileRefusal>
    ensures within { IfOk result (λ v. length v.items ≤ limit) }
{
    let Ok(path) = str::from_utf8(name) else {
        return Err(FileRefusal::Failed);
    };
    let file = match fs::open(runtime, path) {
        Ok(file) => file,
        Err(error) if error.kind() == ErrorKind::OutOfMemory => return Err(FileRefusal::NoMemory),
        Err(_) => return Err(FileRefusal::Failed),
    };
    let mut source = StdSource::new(file.take(limit.saturating_add(1)));
    read_all(alloc, &mut source, limit).map_err(|refusal| match refusal {
        ReadRefusal::Failed => FileRefusal::Failed,
        ReadRefusal::TooLong => FileRefusal::TooLong,
        ReadRefusal::NoMemory => FileRefusal::NoMemory,
    })
}
