//! The top call.

ghost use Rattle.std.specs.Prelude.{◌≡◌, ◌↔◌, ◌++◌, [], IfOk, IfSome, None, Some};
ghost use Rattle.ossl_salted.specs.Course.{Goes, Runs, due_by};
ghost use Rattle.ossl_salted.specs.Ends.{IsStatus, status_of};
ghost use Rattle.ossl_salted.specs.File.{magic};
ghost use Rattle.ossl_salted.specs.Outside.{looking, reading, writing};
ghost use Rattle.ossl_salted.specs.Return.{BringsBack, Completes};
ghost use Rattle.ossl_salted.specs.Words.{asked, asked_by, bits_in};

use crate::cipher::{Way, through};
use crate::end::End;
use crate::header::{MAGIC, read_header};
use crate::job::Job;
use crate::key::{key_and_iv, password};
use crate::words::read_words;
use ossl_base::{FileRefusal, Files, Sink, Source};
use std::alloc::{AllocError, Global};

/// The most bytes of an input.
const MOST_BYTES: u64 = 1_073_741_824;

/// The most bytes of the password's file.
const MOST_PASSWORD: u64 = 4096;

/// Encrypts or decrypts as the words say, and gives the status (docs/manual/enc.md has the words and the statuses).
///
/// The words are those after the program's name. The input is all that the source has left; it is read and written in
/// pieces of at most 4,096 bytes, in constant memory. No error line is written, as the output is the file.
pub fn enc<S: Source, F: Files, K: Sink>(
    alloc: Global,
    words: &[String],
    source: &mut S,
    files: &mut F,
    sink: &mut K,
) -> u8
    ensures statuses { IsStatus result }
    ensures usage { (result ≡ 2) ↔ (asked words.now ≡ None) }
    ensures unlawful_reads_nothing { asked words.now ≡ None → source.new ≡ source.old }
    ensures unlawful_writes_nothing { asked words.now ≡ None → sink.new ≡ sink.old }

    // Each other status with its cause and with what is written, in the order in which the checks come: the password's
    // file; of the input its reading, its header, its length, its last block; the writing.
    ensures table { IfSome (asked words.now) (λ a. Goes a result (reading S.left S.faults source.old source.new)
        (looking F.entries F.faults files.old files.new) (writing K.taken K.faults sink.old sink.new)) }
    ensures comes_back { IfSome (asked words.now) (λ a. BringsBack a result
        (reading S.left S.faults source.old source.new) (looking F.entries F.faults files.old files.new)
        (writing K.taken K.faults sink.old sink.new)) }
    ensures completes { IfSome (asked words.now) (λ a. Completes a result
        (reading S.left S.faults source.old source.new) (looking F.entries F.faults files.old files.new)
        (writing K.taken K.faults sink.old sink.new)) }
{
    match read_words(words) {
        Some(job) => run(alloc, &job, source, files, sink).status(),
        None => End::Usage.status(),
    }
}

// The run that a job asks for.
fn run<S: Source, F: Files, K: Sink>(
    alloc: Global,
    job: &Job,
    source: &mut S,
    files: &mut F,
    sink: &mut K,
) -> End
    ensures table { Goes (asked_by job.now) (status_of result) (reading S.left S.faults source.old source.new)
        (looking F.entries F.faults files.old files.new) (writing K.taken K.faults sink.old sink.new) }
    ensures lawful { status_of result ≡ 2 → ⊥ }
{
    match files.read_whole(alloc, job.name, MOST_PASSWORD) {
        Ok(content) => run_with(alloc, job, password(content.as_slice()), source, sink),
        Err(FileRefusal::Failed) => End::Unread,
        Err(FileRefusal::TooLong) => End::TooLong,
        Err(FileRefusal::NoMemory) => End::NoMemory,
    }
}

// The run with a password.
fn run_with<S: Source, K: Sink>(
    alloc: Global,
    job: &Job,
    password: &[u8],
    source: &mut S,
    sink: &mut K,
) -> End
    ensures { Runs (due_by job.now.salt (bits_in job.now.size) job.now.rounds password.now) (status_of result)
        (reading S.left S.faults source.old source.new) (writing K.taken K.faults sink.old sink.new) }
{
    match job.salt {
        Some(salt) => encrypt(alloc, job, salt, password, source, sink),
        None => decrypt(alloc, job, password, source, sink),
    }
}

// What stands before the encrypted text.
fn head(alloc: Global, salt: [u8; 8]) -> Result<Vec<u8>, AllocError>
    ensures { IfOk result (λ head. head.items ≡ magic ++ salt) }
{
    let mut head = Vec::from_slice(alloc, &MAGIC)?;
    head.extend_from_slice(&salt)?;
    Ok(head)
}

// Writes the salted file of the input.
fn encrypt<S: Source, K: Sink>(
    alloc: Global,
    job: &Job,
    salt: [u8; 8],
    password: &[u8],
    source: &mut S,
    sink: &mut K,
) -> End
    ensures { Runs (due_by (Some salt) (bits_in job.now.size) job.now.rounds password.now) (status_of result)
        (reading S.left S.faults source.old source.new) (writing K.taken K.faults sink.old sink.new) }
{
    let material = key_and_iv(password, &salt, job.rounds, job.size);
    match head(alloc, salt) {
        Ok(head) => {
            let way = Way {
                decrypt: false,
                head,
                room: MOST_BYTES,
            };
            through(&material, job.size, way, source, sink)
        }
        Err(AllocError) => End::NoMemory,
    }
}

// Writes the text of the salted file that the input is.
fn decrypt<S: Source, K: Sink>(
    alloc: Global,
    job: &Job,
    password: &[u8],
    source: &mut S,
    sink: &mut K,
) -> End
    ensures { Runs (due_by None (bits_in job.now.size) job.now.rounds password.now) (status_of result)
        (reading S.left S.faults source.old source.new) (writing K.taken K.faults sink.old sink.new) }
{
    match read_header(source) {
        Ok(salt) => {
            let way = Way {
                decrypt: true,
                head: Vec::new(alloc),
                room: MOST_BYTES - 16,
            };
            let material = key_and_iv(password, &salt, job.rounds, job.size);
            through(&material, job.size, way, source, sink)
        }
        Err(end) => end,
    }
}
