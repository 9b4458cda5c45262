//! What the files of a batch hold.

ghost use Rattle.std.specs.Prelude.{◌≡◌, ◌≤◌, ℕ, [], length, map, IfOk};
ghost use Rattle.ossl_conf.specs.Answers.{mapped};
ghost use Rattle.ossl_prepare.specs.Answered.{AreContents, ButForMemory, IsContent, telling};

use crate::error_line::ErrorLine;
use crate::refused::Refused;
use ossl_base::{Bytes, FileRefusal, Files, Text};
use ossl_commands::Limit;
use std::alloc::{AllocError, Global};

/// The content of a file, within a limit.
pub fn read_content<F: Files>(
    alloc: Global,
    files: &mut F,
    name: &Text,
    limit: Limit,
) -> Result<Bytes, Refused>
    ensures content { (before after : ℕ) → before ≤ F.faults files.old → F.faults files.new ≤ after →
        ButForMemory result (IsContent (telling (F.entries files.old) before after) name.now limit) }
    ensures kept { F.entries files.new ≡ F.entries files.old }
    ensures later { F.faults files.old ≤ F.faults files.new }
{
    match files.read_whole(alloc, name.as_slice(), limit.most()) {
        Ok(content) => Ok(Bytes::of(content)),
        Err(FileRefusal::Failed) => Err(Refused::Error(ErrorLine::Read)),
        Err(FileRefusal::TooLong) => Err(Refused::Error(ErrorLine::Limit(limit))),
        Err(FileRefusal::NoMemory) => Err(Refused::NoMemory),
    }
}

/// The contents of files in their order, each read once.
pub fn read_contents<F: Files>(
    alloc: Global,
    files: &mut F,
    names: &[Text],
) -> Result<Vec<Bytes>, Refused>
    ensures contents { (before after : ℕ) → before ≤ F.faults files.old → F.faults files.new ≤ after →
        ButForMemory (mapped (λ contents. contents.items) result) (AreContents (telling
        (F.entries files.old) before after) [] names.now) }
    ensures each { IfOk result (λ contents. length contents.items ≡ length names.now) }
    ensures kept { F.entries files.new ≡ F.entries files.old }
    ensures later { F.faults files.old ≤ F.faults files.new }
{
    let mut contents = Vec::new(alloc);
    for name in names {
        let content = read_content(alloc, files, name, Limit::File)?;
        contents.push(content)?;
    }
    Ok(contents)
}

/// The lengths of contents.
pub fn lengths_of(alloc: Global, contents: &[Bytes]) -> Result<Vec<u64>, AllocError>
    ensures lengths { IfOk result (λ lengths. lengths.items ≡ map length contents.now) }
{
    contents
        .iter()
        .map(|content| content.as_slice().len() as u64)
        .collect(alloc)
}
