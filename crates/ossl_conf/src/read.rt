//! The reading of a configuration.

ghost use Rattle.std.specs.Prelude.{◌≡◌, ◌⊎◌, ◌≤◌, ℕ, List, length, Some, Err, OnOk, IfOk, vec_len, Result};
ghost use Rattle.ossl_base.specs.declared.files.FileRefusal.{FileRefusal};
ghost use Rattle.ossl_base.specs.Causes.{Rose};
ghost use Rattle.ossl_base.specs.Files.{Entries, LacksName};
ghost use Rattle.ossl_conf.specs.Answers.{mapped, told, AfterLine, AfterLines, ButForMemory, IsAnswer, IsFaulty};
ghost use Rattle.ossl_conf.specs.Answers.{MayAnswer, MayIncludeAt};
ghost use Rattle.ossl_conf.specs.Lines.{logical_lines};
ghost use Rattle.ossl_conf.specs.Private.{after};
ghost use Rattle.ossl_conf.specs.Kept.{all_sections};
ghost use Rattle.ossl_conf.specs.Places.{Stays};
ghost use Rattle.ossl_conf.specs.Progress.{conf_of};
ghost use Rattle.ossl_conf.specs.Reading.{content_of, most_bytes};
ghost use Rattle.ossl_conf.specs.Said.{includes};
ghost use Rattle.ossl_conf.specs.Settings.{settings_of};

use crate::kind::ConfKind;
use crate::lines::read_line;
use crate::progress::Progress;
use crate::refusal::ConfRefused;
use crate::said::{Statement, said};
use crate::settings::Settings;
use crate::settling::settings;
use ossl_base::{FileRefusal, Files, Text};
use std::alloc::Global;

/// How deep files may include each other.
const MOST_DEPTH: u8 = 4;

/// Reads a configuration of at most `MOST_BYTES`, with the files that it includes: its settings, or why it is refused.
pub fn read_conf<F: Files>(
    alloc: Global,
    text: &[u8],
    files: &mut F,
) -> Result<Settings, ConfRefused>
    requires { length text.now ≤ most_bytes }
    // The answer is the one that the text has by what the files answered, or want of memory.
    ensures answer { ButForMemory result (IsAnswer (F.entries files.old) text.now) }
    // Where the files are told it is the one by their contents, unless a file that is there was not read.
    ensures told { (entries : Entries) → F.entries files.old ≡ Some entries →
        ButForMemory result (λ answer. (answer ≡ settings_of (told entries) text.now)
        ⊎ IsFaulty (F.faults files.old) (F.faults files.new) answer) }
    // A file is not read only where the count of faults rose, or the files are told and lack it.
    ensures failed { (name : List ℕ) → result ≡ Err (ConfRefused.File name FileRefusal.Failed) →
        Rose (F.faults files.old) (F.faults files.new) ⊎ LacksName (F.entries files.old) name }
    ensures kept { F.entries files.new ≡ F.entries files.old }
    ensures later { F.faults files.old ≤ F.faults files.new }
{
    let mut conf = Progress::new(alloc, text);
    read_lines(alloc, &mut conf, files, text, MOST_DEPTH)?;
    settings(alloc, &conf.sections)
}

// Reads the lines of a text, in which files may be included at so many depths.
#[cycle(reading)]
fn read_lines<F: Files>(
    alloc: Global,
    conf: &mut Progress,
    files: &mut F,
    text: &[u8],
    depths: u8,
) -> Result<(), ConfRefused>
    requires { length text.now ≤ most_bytes }
    ensures read { ButForMemory (after (conf_of conf.new) result)
        (AfterLines (MayIncludeAt (F.entries files.old) depths) (conf_of conf.old) (logical_lines text.now)) }
    ensures others { Stays (all_sections conf.old.sections) (all_sections conf.new.sections) }
    ensures failed { (name : List ℕ) → result ≡ Err (ConfRefused.File name FileRefusal.Failed) →
        Rose (F.faults files.old) (F.faults files.new) ⊎ LacksName (F.entries files.old) name }
    ensures kept { F.entries files.new ≡ F.entries files.old }
    ensures later { F.faults files.old ≤ F.faults files.new }
{
    let mut line = Vec::new(alloc);
    let mut left = Some(text);
    let mut number = 1;
    'lines: while let Some(rest) = left {
        line.clear();
        let read = read_line(rest, &mut line)?;
        match said(line.as_slice()) {
            Statement::Includes(name) => include(alloc, conf, files, number, name, depths)?,
            said => conf.obey(alloc, number, said)?,
        }
        number += read.lines;
        left = read.rest;
    }
    Ok(())
}

// Reads the file whose name a text has in a line of this number, where files may be included at so many depths.
#[cycle(reading)]
fn include<F: Files>(
    alloc: Global,
    conf: &mut Progress,
    files: &mut F,
    number: u64,
    text: &[u8],
    depths: u8,
) -> Result<(), ConfRefused>
    ensures read { ButForMemory (after (conf_of conf.new) result)
        (AfterLine (MayIncludeAt (F.entries files.old) depths) (conf_of conf.old) number (includes text.now)) }
    ensures others { Stays (all_sections conf.old.sections) (all_sections conf.new.sections) }
    ensures failed { (name : List ℕ) → result ≡ Err (ConfRefused.File name FileRefusal.Failed) →
        Rose (F.faults files.old) (F.faults files.new) ⊎ LacksName (F.entries files.old) name }
    ensures kept { F.entries files.new ≡ F.entries files.old }
    ensures later { F.faults files.old ≤ F.faults files.new }
{
    let name = conf.file_of(alloc, number, text)?;
    if depths == 0 {
        let kind = ConfKind::Depth;
        return Err(ConfRefused::Line { number, kind });
    }
    let content = content_of(alloc, files, name, conf.left)?;
    let place = conf.enter(content.len() as u64);
    read_lines(alloc, conf, files, content.as_slice(), depths - 1)?;
    conf.leave(place);
    Ok(())
}

// The content of a file of at most so many bytes.
fn content_of<F: Files>(
    alloc: Global,
    files: &mut F,
    name: Text,
    limit: u64,
) -> Result<Vec<u8>, ConfRefused>
    ensures answer { ButForMemory (mapped (λ content. content.items) result) (λ content.
        (answer : Result (List ℕ) FileRefusal) × MayAnswer (F.entries files.old) name limit answer
        × (content ≡ content_of name answer)) }
    ensures within { IfOk result (λ content. vec_len content ≤ limit) }
    ensures failed { (named : List ℕ) → result ≡ Err (ConfRefused.File named FileRefusal.Failed) →
        Rose (F.faults files.old) (F.faults files.new) ⊎ LacksName (F.entries files.old) named }
    ensures kept { F.entries files.new ≡ F.entries files.old }
    ensures later { F.faults files.old ≤ F.faults files.new }
{
    match files.read_whole(alloc, name.as_slice(), limit) {
        Ok(content) => Ok(content),
        Err(FileRefusal::Failed) => {
            let refusal = FileRefusal::Failed;
            Err(ConfRefused::File { name, refusal })
        }
        Err(FileRefusal::TooLong) => {
            let refusal = FileRefusal::TooLong;
            Err(ConfRefused::File { name, refusal })
        }
        Err(FileRefusal::NoMemory) => Err(ConfRefused::NoMemory),
    }
}
