//! The top call of runs in threads.

ghost use Rattle.std.specs.Prelude.{◌≡◌, ◌<◌, All, Ok, false, map, true};
ghost use Rattle.ossl_calls.specs.Registry.{IsCatalogue, IsDown};
ghost use Rattle.ossl_par.specs.Threads.{EachCallerOfRunIsDone, ProgramOfRunIsApart};
ghost use Rattle.ossl_prepare.specs.Task.{Inputs, IsDueRun, reads_source};
ghost use Rattle.ossl_run.specs.Ending.{Ends, boxes_of};
ghost use Rattle.ossl_words.specs.Commands.{bytes_of, job_of};

use crate::running::run_over;
use ossl_base::files::Files;
use ossl_base::stream::{Sink, Source};
use ossl_prepare::{Refused, Task, read_task};
use ossl_provider::boxed::Boxed;
use ossl_provider::provider::Provider;
use ossl_run::{NO_MEMORY, Outcome, Ran, course_answer, own_callers, refuse, send, untouched};
use ossl_worker::Gate;
use std::alloc::Global;
use std::marker::Brand;
use std::sync::Wait;
use std::sync::ledger::{Blank, Ledger};
use std::thread::Threads;

/// Runs a task, and writes what it answers.
fn perform<R: Threads + Wait + Sync, P: Provider + Send, L: Ledger, K: Sink, G: Gate>(
    rt: &R,
    alloc: Global,
    blank: Blank,
    sink: &mut K,
    gate: &G,
    task: &Task,
    catalogue: Vec<P>,
) -> Outcome<P>
    requires name { blank.name ≡ L.name }
    requires parts { blank.parts ≡ L.parts }
    requires some { 0 < L.parts }
    requires catalogue { IsCatalogue (map P.facts catalogue.items) (map P.sheet catalogue.items) }
    requires due { (inputs : Inputs) × IsDueRun inputs (Ok task.now) }
    ensures ends { (inputs : Inputs) → inputs.threads ≡ true → IsDueRun inputs (Ok task.now) →
        Ends inputs (boxes_of P.facts P.sheet catalogue.items result.catalogue.items)
        (record {
          taken = K.taken sink.old;
          now = K.taken sink.new;
          faults = K.faults sink.old;
          faults_now = K.faults sink.new;
        })
        result.status result.history.items result.callers.items }
    ensures facts { map P.facts result.catalogue.items ≡ map P.facts catalogue.items }
    ensures down { All IsDown (map P.sheet result.catalogue.items) }
{
    let Ok(callers) = own_callers(alloc, task) else {
        return untouched(alloc, NO_MEMORY, catalogue);
    };
    let Ran {
        history,
        catalogue,
        course,
    } = run_over::<R, P, L, G>(rt, alloc, blank, gate, catalogue, task);
    let Some(course) = course else {
        return untouched(alloc, NO_MEMORY, catalogue);
    };
    let (answer, callers) = course_answer(
        alloc,
        task,
        catalogue.as_slice(),
        history.as_slice(),
        callers,
        course,
    );
    let status = send(sink, answer);
    Outcome {
        status,
        history,
        callers,
        catalogue,
    }
}

/// Answers the words of a command line as `replay` does, from the bytes in to the bytes out, but with each caller of
/// the batch in a thread of its own: the order of the history is the one in which the calls took place.
///
/// The words are those after the program's name, without a stated order. `gate` is asked before each call of a caller.
/// The boxes come back in their order, and none of them is up, at any status. Want of memory is the only free answer.
pub fn batch<R: Threads + Wait + Sync, S: Source, F: Files, K: Sink, G: Gate>(
    rt: &R,
    alloc: Global,
    words: &[String],
    source: &mut S,
    files: &mut F,
    sink: &mut K,
    catalogue: Vec<Boxed>,
    gate: &G,
) -> Outcome
    requires catalogue { IsCatalogue (map (λ b. facts b) catalogue.items) (map (λ b. sheet b) catalogue.items) }

    // The first error in the order of the checks, a refused opening, a finished run, or want of memory; at 4 a prefix
    // of the former.
    ensures ends { Ends (record {
      threads = true;
      words = bytes_of words.now;
      left = S.left source.old;
      before = S.faults source.old;
      after = S.faults source.new;
      files = record { entries = F.entries files.old; before = F.faults files.old; after = F.faults files.new };
    }) (boxes_of (λ b. facts b) (λ b. sheet b) catalogue.items result.catalogue.items)
        (record {
          taken = K.taken sink.old;
          now = K.taken sink.new;
          faults = K.faults sink.old;
          faults_now = K.faults sink.new;
        })
        result.status result.history.items result.callers.items }

    // At every status the boxes come back as they are, in their order, and none is up.
    ensures facts { map (λ b. facts b) result.catalogue.items ≡ map (λ b. facts b) catalogue.items }
    ensures down { All IsDown (map (λ b. sheet b) result.catalogue.items) }

    // In a finished run, whatever the order in which threads came to their calls, each caller has made its calls, once
    // and in its order, and the program's own calls are before and behind all others.
    ensures each { EachCallerOfRunIsDone }
    ensures apart { ProgramOfRunIsApart }

    // What is generated reads no source.
    ensures unread { reads_source (job_of true (bytes_of words.now)) ≡ false → source.new ≡ source.old }
    ensures kept { F.entries files.new ≡ F.entries files.old }
{
    match read_task(alloc, words, true, source, files) {
        Ok(task) => perform::<R, Boxed, Brand, K, G>(
            rt,
            alloc,
            Blank::new(1),
            sink,
            gate,
            &task,
            catalogue,
        ),
        Err(Refused::Error(error)) => refuse(alloc, sink, &error, catalogue),
        Err(Refused::NoMemory) => untouched(alloc, NO_MEMORY, catalogue),
    }
}
