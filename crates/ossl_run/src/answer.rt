//! What a call writes.

ghost use Rattle.std.specs.Prelude.{◌≡◌, Bool, IfOk, map};
ghost use Rattle.ossl_prepare.specs.ErrorLine.{error_status, error_text};
ghost use Rattle.ossl_commands.specs.Counts.{contexts_of};
ghost use Rattle.ossl_ordered.specs.Run.{own_numbers};
ghost use Rattle.ossl_watch.specs.Changes.{IsHistory};
ghost use Rattle.ossl_run.specs.Ending.{batch_of, text_of};
ghost use Rattle.ossl_run.specs.Middle.{HasResults, IsCourse, IsToldOf, Sends};

use crate::course::Course;
use crate::output::{Finished, output_of};
use ossl_base::stream::Sink;
use ossl_base::whole::write_all;
use ossl_prepare::{ErrorLine, Task};
use ossl_provider::provider::Provider;
use ossl_state::call::Entry;
use std::alloc::{AllocError, Global};

/// The status of a failed write.
const WRITE_FAILED: u8 = 4;

/// The status of want of memory.
pub const NO_MEMORY: u8 = 9;

/// What a call answers.
#[derive(Drop)]
pub struct Answer {
    /// The status with which the program ends once the text is written.
    pub status: u8,
    /// What is to be written.
    pub text: Vec<u8>,
}

/// An error line, as an answer.
pub fn error_answer(alloc: Global, error: &ErrorLine) -> Result<Answer, AllocError>
    ensures status { IfOk result (λ answer. answer.status ≡ error_status error.now) }
    ensures text { IfOk result (λ answer. answer.text.items ≡ error_text error.now) }
{
    let text = error.line(alloc)?;
    Ok(Answer {
        status: error.status(),
        text,
    })
}

/// The output of a finished run, as an answer.
fn finished_answer<P: Provider>(alloc: Global, run: &Finished<P>) -> Result<Answer, AllocError>
    requires legal { IsHistory (map P.facts run.now.catalogue.now)
        (contexts_of run.now.task.now.prepared.script.commands) run.now.history.now }
    requires results { HasResults run.now.task.now (map (λ rs. rs.items) run.now.results.now) run.now.history.now }
    requires callers { run.now.callers.now ≡ own_numbers (batch_of run.now.task.now.prepared) }
    ensures status { IfOk result (λ answer. answer.status ≡ 0) }
    ensures text { IfOk result (λ answer. answer.text.items
        ≡ text_of run.now.task.now.job (map P.facts run.now.catalogue.now) (batch_of run.now.task.now.prepared)
        run.now.history.now) }
{
    let text = output_of(alloc, run)?;
    Ok(Answer { status: 0, text })
}

/// What a run answers, and the numbers of its callers: none where the opening was refused.
pub fn course_answer<P: Provider>(
    alloc: Global,
    task: &Task,
    catalogue: &[P],
    history: &[Entry],
    callers: Vec<u64>,
    course: Result<Course, AllocError>,
) -> (Result<Answer, AllocError>, Vec<u64>)
    requires legal { IsHistory (map P.facts catalogue.now) (contexts_of task.now.prepared.script.commands) history.now }
    requires course { (threads : Bool) × IfOk course (λ course. IsCourse threads course task.now history.now) }
    requires callers { callers.items ≡ own_numbers (batch_of task.now.prepared) }
    ensures told { (threads : Bool) → IfOk course (λ course. IsCourse threads course task.now history.now) →
        IsToldOf threads task.now (map P.facts catalogue.now) history.now result.0 result.1.items }
{
    match course {
        Ok(Course::Finished(results)) => {
            let answer = finished_answer(
                alloc,
                &Finished {
                    task,
                    catalogue,
                    history,
                    callers: callers.as_slice(),
                    results: results.as_slice(),
                },
            );
            (answer, callers)
        }
        Ok(Course::Refused(name)) => {
            let answer = error_answer(alloc, &ErrorLine::Provider(name));
            (answer, Vec::new(alloc))
        }
        Err(AllocError) => (Err(AllocError), callers),
    }
}

/// Writes an answer, and gives the status: its own, 4 where the sink failed, or 9 where there is no answer for want of
/// memory.
pub fn send<K: Sink>(sink: &mut K, answer: Result<Answer, AllocError>) -> u8
    ensures sent { Sends (record {
      taken = K.taken sink.old;
      now = K.taken sink.new;
      faults = K.faults sink.old;
      faults_now = K.faults sink.new;
    }) answer result }
{
    let Ok(answer) = answer else {
        return NO_MEMORY;
    };
    match write_all(sink, answer.text.as_slice()) {
        Ok(()) => answer.status,
        Err(_) => WRITE_FAILED,
    }
}
