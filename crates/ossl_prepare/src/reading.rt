//! The reading of a job's words, of its batch and of what that needs.

ghost use Rattle.std.specs.Prelude.{◌≡◌, ◌≤◌, Some, false};
ghost use Rattle.std.specs.Option.{option_copied};
ghost use Rattle.ossl_conf.specs.Answers.{mapped};
ghost use Rattle.ossl_prepare.specs.Answered.{ButForMemory};
ghost use Rattle.ossl_prepare.specs.Task.{DueRunIsTold, HasCallers, IsDueRun, IsText};
ghost use Rattle.ossl_prepare.specs.Task.{conf_of, job_or, order_of, reads_source};
ghost use Rattle.ossl_words.specs.Commands.{bytes_of, job_of};

use crate::error_line::ErrorLine;
use crate::ready::{Prepared, prepare};
use crate::refused::Refused;
use ossl_base::stream::Source;
use ossl_base::whole::{ReadRefusal, read_all};
use ossl_base::{Files, Text};
use ossl_commands::Limit;
use ossl_generate::generate;
use ossl_words::{Job, WordsRefused, read_words};
use std::alloc::Global;

/// A job, with all that its run needs.
#[derive(Drop)]
pub struct Task {
    pub job: Job,
    pub prepared: Prepared,
}

/// The name of the configuration, where one is named.
fn conf_of(job: &Job) -> Option<&Text>
    ensures conf { option_copied result ≡ conf_of job.now }
{
    match job {
        Job::Run { conf, .. } => conf.as_ref(),
        Job::Gen { .. } => None,
    }
}

/// The callers of the stated order; none where there is no order.
pub fn order_of(job: &Job) -> &[u64]
    ensures order { result.now ≡ order_of job.now }
{
    match job {
        Job::Run { order, .. } => order.as_slice(),
        Job::Gen { .. } => &[],
    }
}

/// The job that the words ask for.
fn read_job(alloc: Global, words: &[String], threads: bool) -> Result<Job, Refused>
    ensures job { ButForMemory result (λ answer. answer ≡ job_or (job_of threads (bytes_of words.now))) }
{
    match read_words(alloc, words, threads) {
        Ok(job) => Ok(job),
        Err(WordsRefused::Usage) => Err(Refused::Error(ErrorLine::Usage)),
        Err(WordsRefused::NoMemory) => Err(Refused::NoMemory),
    }
}

/// The text of the batch: all that the source has left, within the limit of bytes, or what is generated.
fn read_text<S: Source>(alloc: Global, source: &mut S, job: &Job) -> Result<Vec<u8>, Refused>
    requires callers { HasCallers job.now }
    ensures text { ButForMemory (mapped (λ text. text.items) result)
        (IsText (S.left source.old) (S.faults source.old) (S.faults source.new) job.now) }
    ensures later { S.faults source.old ≤ S.faults source.new }
    ensures unread { reads_source (Some job.now) ≡ false → source.new ≡ source.old }
{
    match job {
        Job::Run { .. } => match read_all(alloc, source, Limit::Bytes.most()) {
            Ok(text) => Ok(text),
            Err(ReadRefusal::Failed) => Err(Refused::Error(ErrorLine::Read)),
            Err(ReadRefusal::TooLong) => Err(Refused::Error(ErrorLine::Limit(Limit::Bytes))),
            Err(ReadRefusal::NoMemory) => Err(Refused::NoMemory),
        },
        Job::Gen {
            lines,
            seed,
            callers,
        } => Ok(generate(alloc, *lines, *seed, *callers)?),
    }
}

/// Reads all that the run of the words' job needs, or ends in the first error in the order of the checks. A generated
/// batch reads neither source nor files. `threads` tells whether the program has threads, and takes no order then.
#[tactic(auto, using(crate::proofs::TextLaws::due_run_is_told))]
pub fn read_task<S: Source, F: Files>(
    alloc: Global,
    words: &[String],
    threads: bool,
    source: &mut S,
    files: &mut F,
) -> Result<Task, Refused>
    ensures due { ButForMemory result (IsDueRun (record {
      threads = threads;
      words = bytes_of words.now;
      left = S.left source.old;
      before = S.faults source.old;
      after = S.faults source.new;
      files = record { entries = F.entries files.old; before = F.faults files.old; after = F.faults files.new };
    })) }
    ensures unread { reads_source (job_of threads (bytes_of words.now)) ≡ false → source.new ≡ source.old }
    ensures kept { F.entries files.new ≡ F.entries files.old }
    ensures told { DueRunIsTold }
{
    let job = read_job(alloc, words, threads)?;
    let text = read_text(alloc, source, &job)?;
    let prepared = prepare(alloc, text.as_slice(), conf_of(&job), files)?;
    Ok(Task { job, prepared })
}
