//! The top call of runs in a stated order.

ghost use Rattle.std.specs.Prelude.{◌≡◌, ◌<◌, [], All, Ok, Err, false, map, IfOk};
ghost use Rattle.ossl_calls.specs.Registry.{IsCatalogue, IsDown};
ghost use Rattle.ossl_ordered.specs.Run.{RunInOrderIsRun, own_numbers};
ghost use Rattle.ossl_ordered.specs.Turns.{EachCallerIsDone, OrderOfText, ProgramIsApart, RunIsFixed};
ghost use Rattle.ossl_prepare.specs.Task.{Inputs, IsDueRun, reads_source};
ghost use Rattle.ossl_words.specs.Commands.{bytes_of, job_of};
ghost use Rattle.ossl_run.specs.Ending.{Ends, batch_of, boxes_of};

use crate::answer::{NO_MEMORY, course_answer, error_answer, send};
use crate::outcome::Outcome;
use crate::running::{Ran, run_over};
use ossl_base::files::Files;
use ossl_base::stream::{Sink, Source};
use ossl_prepare::{ErrorLine, Refused, Task, read_task};
use ossl_provider::boxed::Boxed;
use ossl_provider::provider::Provider;
use std::alloc::{AllocError, Global};
use std::marker::Brand;
use std::sync::ledger::{Blank, Ledger};

/// The numbers of the callers of a batch, each its own.
#[tactic(auto, using(crate::proofs::ListLaws::own_more))]
pub fn own_callers(alloc: Global, task: &Task) -> Result<Vec<u64>, AllocError>
    ensures callers { IfOk result (λ callers. callers.items ≡ own_numbers (batch_of task.now.prepared)) }
{
    let mut callers = Vec::new(alloc);
    for place in 0..task.prepared.script().callers() {
        callers.push(place + 1)?;
    }
    Ok(callers)
}

/// The boxes as they came, where no registry was opened.
pub fn untouched<P: Provider>(alloc: Global, status: u8, catalogue: Vec<P>) -> Outcome<P>
    ensures status { result.status ≡ status }
    ensures history { result.history.items ≡ [] }
    ensures callers { result.callers.items ≡ [] }
    ensures catalogue { result.catalogue.items ≡ catalogue.items }
{
    Outcome {
        status,
        history: Vec::new(alloc),
        callers: Vec::new(alloc),
        catalogue,
    }
}

/// Writes an error line, and hands the boxes back as they came.
pub fn refuse<P: Provider, K: Sink>(
    alloc: Global,
    sink: &mut K,
    error: &ErrorLine,
    catalogue: Vec<P>,
) -> Outcome<P>
    ensures ends { (inputs : Inputs) → IsDueRun inputs (Err error.now) →
        Ends inputs (boxes_of P.facts P.sheet catalogue.items result.catalogue.items)
        (record {
          taken = K.taken sink.old;
          now = K.taken sink.new;
          faults = K.faults sink.old;
          faults_now = K.faults sink.new;
        })
        result.status result.history.items result.callers.items }
    ensures catalogue { result.catalogue.items ≡ catalogue.items }
{
    let status = send(sink, error_answer(alloc, error));
    untouched(alloc, status, catalogue)
}

/// Runs a task, and writes what it answers.
#[tactic(auto, using(crate::proofs::DueLaws::due_runnable))]
fn perform<P: Provider, L: Ledger, K: Sink>(
    alloc: Global,
    blank: Blank,
    sink: &mut K,
    task: &Task,
    catalogue: Vec<P>,
) -> Outcome<P>
    requires name { blank.name ≡ L.name }
    requires parts { blank.parts ≡ L.parts }
    requires some { 0 < L.parts }
    requires catalogue { IsCatalogue (map P.facts catalogue.items) (map P.sheet catalogue.items) }
    requires due { (inputs : Inputs) × IsDueRun inputs (Ok task.now) }
    ensures ends { (inputs : Inputs) → inputs.threads ≡ false → IsDueRun inputs (Ok task.now) →
        Ends inputs (boxes_of P.facts P.sheet catalogue.items result.catalogue.items)
        (record {
          taken = K.taken sink.old;
          now = K.taken sink.new;
          faults = K.faults sink.old;
          faults_now = K.faults sink.new;
        })
        result.status result.history.items result.callers.items }
    ensures facts { map P.facts result.catalogue.items ≡ map P.facts catalogue.items }
    ensures down { All IsDown (map P.sheet result.catalogue.items) }
{
    let Ok(callers) = own_callers(alloc, task) else {
        return untouched(alloc, NO_MEMORY, catalogue);
    };
    let Ran {
        history,
        catalogue,
        course,
    } = run_over::<P, L>(alloc, blank, catalogue, task);
    let Some(course) = course else {
        return untouched(alloc, NO_MEMORY, catalogue);
    };
    let (answer, callers) = course_answer(
        alloc,
        task,
        catalogue.as_slice(),
        history.as_slice(),
        callers,
        course,
    );
    let status = send(sink, answer);
    Outcome {
        status,
        history,
        callers,
        catalogue,
    }
}

/// Answers the words of a command line, from the bytes in to the bytes out: runs the batch that the source has left, or
/// one that is generated, and writes its order and its results, or one error line.
///
/// The words are those after the program's name. The boxes come back in their order, and none of them is up, at any
/// status. Want of memory is the only free answer.
pub fn replay<S: Source, F: Files, K: Sink>(
    alloc: Global,
    words: &[String],
    source: &mut S,
    files: &mut F,
    sink: &mut K,
    catalogue: Vec<Boxed>,
) -> Outcome
    requires catalogue { IsCatalogue (map (λ b. facts b) catalogue.items) (map (λ b. sheet b) catalogue.items) }

    // The first error in the order of the checks, a refused opening, a finished run, or want of memory; at 4 a prefix
    // of the former.
    ensures ends { Ends (record {
      threads = false;
      words = bytes_of words.now;
      left = S.left source.old;
      before = S.faults source.old;
      after = S.faults source.new;
      files = record { entries = F.entries files.old; before = F.faults files.old; after = F.faults files.new };
    }) (boxes_of (λ b. facts b) (λ b. sheet b) catalogue.items result.catalogue.items)
        (record {
          taken = K.taken sink.old;
          now = K.taken sink.new;
          faults = K.faults sink.old;
          faults_now = K.faults sink.new;
        })
        result.status result.history.items result.callers.items }

    // At every status the boxes come back as they are, in their order, and none is up.
    ensures facts { map (λ b. facts b) result.catalogue.items ≡ map (λ b. facts b) catalogue.items }
    ensures down { All IsDown (map (λ b. sheet b) result.catalogue.items) }

    // A finished run in a stated order is a run; in it each caller has made its calls, once and in its order, the
    // program's own calls are before and behind all others, without an order the lines run in the order of the text,
    // and but for refused starts it is the only one.
    ensures is_run { RunInOrderIsRun }
    ensures each { EachCallerIsDone }
    ensures apart { ProgramIsApart }
    ensures text_order { OrderOfText }
    ensures fixed { RunIsFixed }

    // What is generated reads no source.
    ensures unread { reads_source (job_of false (bytes_of words.now)) ≡ false → source.new ≡ source.old }
    ensures kept { F.entries files.new ≡ F.entries files.old }
{
    match read_task(alloc, words, false, source, files) {
        Ok(task) => perform::<Boxed, Brand, K>(alloc, Blank::new(1), sink, &task, catalogue),
        Err(Refused::Error(error)) => refuse(alloc, sink, &error, catalogue),
        Err(Refused::NoMemory) => untouched(alloc, NO_MEMORY, catalogue),
    }
}
